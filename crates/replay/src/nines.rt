// Rooms of nines: what is lent to a fit, and held against the answer after it.
use crate::compared;
use crate::compared::Check;
use rules::{NodeRoom, ReportRoom, WorkRoom};

// ---- node room

#[derive(Drop)]
pub struct Nodes {
    value: [f64; 64],
    feature: [u32; 64],
    threshold: [f64; 64],
    score: [f64; 64],
    truechild: [u32; 64],
    falsechild: [u32; 64],
    count: [u32; 64],
    mass: [f64; 64],
}

impl Nodes {
    pub fn nines() -> Self {
        Nodes {
            value: [9.0; 64],
            feature: [9; 64],
            threshold: [9.0; 64],
            score: [9.0; 64],
            truechild: [9; 64],
            falsechild: [9; 64],
            count: [9; 64],
            mass: [9.0; 64],
        }
    }

    // The first entries of each, as many as the lengths from the first on say.
    pub fn lent(&mut self, lengths: &[usize]) -> NodeRoom<'_> {
        NodeRoom {
            value: compared::lent(lengths, 0, &mut self.value),
            feature: compared::lent(lengths, 1, &mut self.feature),
            threshold: compared::lent(lengths, 2, &mut self.threshold),
            score: compared::lent(lengths, 3, &mut self.score),
            truechild: compared::lent(lengths, 4, &mut self.truechild),
            falsechild: compared::lent(lengths, 5, &mut self.falsechild),
            count: compared::lent(lengths, 6, &mut self.count),
            mass: compared::lent(lengths, 7, &mut self.mass),
        }
    }

    pub fn compared<'a>(&self, check: Check<'a>) -> Check<'a> {
        check
            .room(&self.value)
            .room(&self.feature)
            .room(&self.threshold)
            .room(&self.score)
            .room(&self.truechild)
            .room(&self.falsechild)
            .room(&self.count)
            .room(&self.mass)
    }
}

// ---- a forest's report columns

#[derive(Drop)]
pub struct Reports {
    nodes: [u32; 64],
    depth: [u32; 64],
    mass: [f64; 64],
    searches: [u32; 64],
    words: [u32; 64],
    thresholds: [u32; 64],
}

impl Reports {
    pub fn nines() -> Self {
        Reports {
            nodes: [9; 64],
            depth: [9; 64],
            mass: [9.0; 64],
            searches: [9; 64],
            words: [9; 64],
            thresholds: [9; 64],
        }
    }

    pub fn lent(&mut self, lengths: &[usize]) -> ReportRoom<'_> {
        ReportRoom {
            nodes: compared::lent(lengths, 9, &mut self.nodes),
            depth: compared::lent(lengths, 10, &mut self.depth),
            mass: compared::lent(lengths, 11, &mut self.mass),
            searches: compared::lent(lengths, 12, &mut self.searches),
            words: compared::lent(lengths, 13, &mut self.words),
            thresholds: compared::lent(lengths, 14, &mut self.thresholds),
        }
    }

    pub fn compared<'a>(&self, check: Check<'a>) -> Check<'a> {
        check
            .room(&self.nodes)
            .room(&self.depth)
            .room(&self.mass)
            .room(&self.searches)
            .room(&self.words)
            .room(&self.thresholds)
    }
}

// ---- work room

#[derive(Drop)]
pub struct Work {
    order: [u32; 64],
    scratch: [u32; 64],
    flags: [bool; 64],
    wholes: [[u32; 6]; 64],
    reals: [[f64; 3]; 64],
}

impl Work {
    pub fn nines() -> Self {
        Work {
            order: [9; 64],
            scratch: [9; 64],
            flags: [true; 64],
            wholes: [[9; 6]; 64],
            reals: [[9.0; 3]; 64],
        }
    }

    // Both slices of the waiting list are as long as one length says.
    pub fn lent(&mut self, lengths: &[usize], from: usize) -> WorkRoom<'_> {
        let last = from.saturating_add(3);
        WorkRoom {
            order: compared::lent(lengths, from, &mut self.order),
            scratch: compared::lent(lengths, from.saturating_add(1), &mut self.scratch),
            flags: compared::lent(lengths, from.saturating_add(2), &mut self.flags),
            wholes: compared::lent(lengths, last, &mut self.wholes),
            reals: compared::lent(lengths, last, &mut self.reals),
        }
    }

    pub fn compared<'a>(&self, check: Check<'a>) -> Check<'a> {
        check
            .room(&self.order)
            .room(&self.scratch)
            .room(&self.flags)
            .waiting(&self.wholes, &self.reals)
    }
}
