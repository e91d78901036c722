// One node of a table, by what its columns say: whether it is a leaf, whether it is good, what it is read out as, and where it sends a value.
#![tactic(auto)]

ghost use Rattle.std.specs.Prelude.{◌≡◌, cond, suc};
ghost use Rattle.std.specs.Float.Ieee.{le};
ghost use Rattle.rules.specs.Table.{good_entry, node_of};
ghost use Rattle.entries.specs.Entries.{entry_is, bare, no_child, next_of};

use rules::{Cut, Fork, Kind, Node};

pub fn is_leaf(truechild: u32, falsechild: u32) -> bool
    ensures { result ≡ no_child truechild falsechild }
{
    truechild == 0 && falsechild == 0
}

// Whether node k of a tree of n nodes is good, by its feature, its true child and its false child. All is asked of every node, since which of them is a leaf cannot be foreseen.
// The children are widened first: one more than the largest u32 must not wrap.
#[tactic(auto, unfolding(rules::specs::Table::good_entry, rules::specs::Table::is_leaf))]
pub fn entry_good(
    features: usize,
    n: usize,
    k: usize,
    feature: u32,
    truechild: u32,
    falsechild: u32,
) -> bool
    ensures { result ≡ good_entry features n k (bare feature truechild falsechild) }
{
    let y = truechild as usize;
    let o = falsechild as usize;
    let j = feature as usize;
    let leaf = (y == 0) & (o == 0);
    let above = k < y;
    let next = o == y + 1;
    let inside = o < n;
    let known = j < features;
    leaf | (above & (next & (inside & known)))
}

// What it says when it is read out.
#[tactic(auto, unfolding(rules::specs::Table::node_of, rules::specs::Table::is_leaf))]
pub fn node_of(
    value: f64,
    feature: u32,
    threshold: f64,
    score: f64,
    truechild: u32,
    falsechild: u32,
) -> Node
    ensures { result ≡ node_of (entry_is value feature threshold score truechild falsechild) }
{
    let kind = if is_leaf(truechild, falsechild) {
        Kind::Leaf
    } else {
        Kind::Split(Fork {
            cut: Cut { feature, threshold },
            score,
            children: truechild,
        })
    };
    Node { value, kind }
}

// The child that a value goes to. The false child comes next after the true one, and a NaN goes to it.
pub fn child_of(x: f64, threshold: f64, truechild: u32) -> usize
    ensures { result ≡ cond (le x threshold) truechild (suc truechild) }
{
    let y = truechild as usize;
    if x <= threshold { y } else { y + 1 }
}

// Where a row with value x is after node k: at the child that it goes to, or still at k if k has none. The child is found before it is known whether there is one, and
// so the two are chosen between without a branch.
pub fn next_of(k: usize, x: f64, threshold: f64, truechild: u32) -> usize
    ensures { result ≡ next_of k x threshold truechild }
{
    let child = child_of(x, threshold, truechild);
    if truechild == 0 { k } else { child }
}
