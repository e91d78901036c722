// How many cases of each kind agree, differ and are malformed.
use crate::compared::Verdict;
use crate::kinds::{KINDS, Kind};
use console::Console;
use std::fmt;
use std::fmt::Write;

#[derive(Clone, Copy)]
pub struct Counts {
    agree: usize,
    differ: usize,
    malformed: usize,
}

impl Counts {
    fn count(&mut self, v: Verdict) {
        let n = match v {
            Verdict::Agrees => &mut self.agree,
            Verdict::Number(_) | Verdict::Room(_) => &mut self.differ,
            Verdict::Malformed => &mut self.malformed,
        };
        *n = n.saturating_add(1);
    }
}

// What the line of a kind ends with.
impl fmt::Display for Counts {
    fn fmt<W: fmt::Write>(&self, f: &mut fmt::Formatter<W>) -> fmt::Result {
        let agree = self.agree;
        let differ = self.differ;
        let malformed = self.malformed;
        write!(f, "{agree} agree, {differ} differ, {malformed} malformed\n")
    }
}

// Of each kind, in the order of KINDS, and how many lines are no case.
#[derive(Drop)]
pub struct Tally {
    counts: [Counts; 13],
    stray: usize,
}

impl Tally {
    pub fn none() -> Self {
        let zero = Counts {
            agree: 0,
            differ: 0,
            malformed: 0,
        };
        Tally {
            counts: [zero; 13],
            stray: 0,
        }
    }

    // A case of a kind, or a line that is none.
    pub fn count(&mut self, kind: Option<Kind>, v: Verdict) {
        let Some(kind) = kind else {
            self.stray = self.stray.saturating_add(1);
            return;
        };
        let i = kind as usize - 1;
        self.counts[i].count(v);
    }

    // A line for each kind, and one for the lines that are no case; a line that cannot be written is passed over.
    pub fn tell(&self, out: &mut Console) {
        for (kind, counts) in KINDS.iter().zip(&self.counts) {
            let _ = write!(out, "{kind}{counts}");
        }
        let stray = self.stray;
        let _ = writeln!(out, "lines that are no case: {stray}");
    }
}
