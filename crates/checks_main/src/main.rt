// Runs the checks on a few small inputs and writes what each tells, a line each: 0 is no refusal.
#![tactic(auto)]

use checks::Lengths;
use console::Console;
use rules::{Checked, Input, NodeReply, Refusal, Reply, Shape, Table, Trees};
use std::fmt::Write;

fn tell(out: &mut Console, n: u32) {
    let _ = writeln!(out, "{n}");
}

// What a check tells: number, part, place and row.
fn tell_all(out: &mut Console, c: Checked) {
    let Err(r) = c else {
        return tell(out, 0);
    };
    let Refusal {
        number,
        part,
        place,
        row,
    } = r;
    let _ = writeln!(out, "{number} {part} {place} {row}");
}

fn number_of(r: Reply) -> u32 {
    r.err().unwrap_or(0)
}

// A node that is there is told as 100, one that is missing as 99.
fn node_number(r: NodeReply) -> u32 {
    match r {
        Err(n) => n,
        Ok(None) => 99,
        Ok(Some(_)) => 100,
    }
}

// ---- listings, over x = 1, 2, 3, 4

fn listing(out: &mut Console, l: [u32; 4]) {
    let x = [1.0, 2.0, 3.0, 4.0];
    let shape = Shape {
        rows: 4,
        features: 1,
    };
    tell_all(out, checks::listing::check_listings(shape, &x, &l));
}

fn listings(out: &mut Console) {
    listing(out, [0, 1, 2, 3]);
    // P10
    listing(out, [0, 1, 1, 3]);
    // a row out of range
    listing(out, [0, 1, 2, 4]);
    // a value that falls
    listing(out, [0, 2, 1, 3]);
}

// ---- P1's input, by node room

fn fitting(out: &mut Console, nodes: usize, count: u32) {
    let input = Input {
        values: &[1.0, 2.0, 3.0, 4.0],
        targets: &[0.0, 0.0, 10.0, 10.0],
        weights: &[],
        counts: &[count, 1, 1, 1],
        listings: &[0, 1, 2, 3],
    };
    let shape = Shape {
        rows: 4,
        features: 1,
    };
    let room = Lengths {
        nodes,
        order: 4,
        scratch: 4,
        flags: 4,
        waiting: 4,
    };
    tell_all(out, checks::tree::tree_verdict(shape, &input, room));
}

fn fits(out: &mut Console) {
    fitting(out, 6, 1);
    fitting(out, 7, 1);
    // three rows kept
    fitting(out, 5, 0);
    fitting(out, 7, 65536);
}

// ---- a tree of three nodes, over two features

fn tree(out: &mut Console, feature: u32, truechild: u32, falsechild: u32) {
    let table = Table {
        value: &[5.0, 0.0, 10.0],
        feature: &[feature, 0, 0],
        threshold: &[2.5, 0.0, 0.0],
        score: &[100.0, 0.0, 0.0],
        truechild: &[truechild, 0, 0],
        falsechild: &[falsechild, 0, 0],
    };
    tell(out, number_of(tables::check_tree(2, &table)));
    tell(out, node_number(tables::read_node(2, &table, 2)));
}

fn trees(out: &mut Console) {
    tree(out, 1, 1, 2);
    // one child 0
    tree(out, 1, 1, 0);
    tree(out, 1, 0, 2);
    // the false child is not the next
    tree(out, 1, 1, 1);
    // a feature out of range
    tree(out, 2, 1, 2);
    // children at the largest number
    tree(out, 1, 4294967295, 0);
    tree(out, 1, 4294967294, 4294967295);
}

fn no_tree(out: &mut Console) {
    let table = Table {
        value: &[],
        feature: &[],
        threshold: &[],
        score: &[],
        truechild: &[],
        falsechild: &[],
    };
    tell(out, number_of(tables::check_tree(1, &table)));
}

// ---- a forest of two leaves

fn forest(out: &mut Console, starts: [u32; 3]) {
    let reals = [0.0, 0.0];
    let wholes = [0u32, 0];
    let table = Table {
        value: &reals,
        feature: &wholes,
        threshold: &reals,
        score: &reals,
        truechild: &wholes,
        falsechild: &wholes,
    };
    let forest = Trees {
        number: 2,
        starts: &starts,
        table,
    };
    tell(out, number_of(tables::check_forest(1, &forest)));
}

fn forests(out: &mut Console) {
    forest(out, [0, 1, 2]);
    // starts that fall, stay, go past the end, do not begin at 0
    forest(out, [0, 2, 1]);
    forest(out, [0, 0, 2]);
    forest(out, [0, 1, 3]);
    forest(out, [1, 1, 2]);
}

fn run(out: &mut Console) {
    listings(out);
    fits(out);
    trees(out);
    no_tree(out);
    forests(out);
}

fn main() {
    run(&mut Console);
}
