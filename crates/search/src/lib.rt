// The search of a node for its cut: choice words, and best or random search over its stretch of each tried column.
#![tactic(auto)]

ghost use Rattle.std.specs.Prelude.{◌≡◌, None, List, ℕ, ◌+◌, ◌≤◌, ◌<◌, length};
ghost use Rattle.rules.specs.Words.{each_once};
ghost use Rattle.rules.specs.Draws.{tape};
ghost use Rattle.rules.specs.Search.{judge, try_one, try_all};
ghost use Rattle.rules.specs.Totals.{less, proxy};
ghost use Rattle.candidates.specs.Held.{bare, held_of, Moved};
ghost use Rattle.search.specs.Flat.{tables_in, Below, too_few, meant_tries, left, NodeAsks, node_rows_at, RowsOf, RowsTried, Fair, Searched};
ghost use Rattle.search.specs.Stretches.{node_in, asks_in};

use candidates::{Candidate, Spot};
use column::Stretch;
use criterion::{Side, less_of, proxy_of};
use rules::{Cut, Input, Params, Shape, Splitter, Tapes, Totals};

pub mod best;
pub mod column;
pub mod random;
#[cfg(test)]
mod tests;

// The tapes do not have what a search takes from them, or have it wrong.
#[derive(Clone, Copy)]
pub struct BadDraw;

// What trying a feature leaves: the best so far, and how many thresholds were taken from the tape.
pub type Attempt = Result<(Candidate, usize), BadDraw>;

// A node that is searched: its rows lie from `from` to `to` in every column.
#[derive(Clone, Copy)]
pub struct NodeView<'a> {
    pub input: Input<'a>,
    pub order: &'a [u32],
    pub shape: Shape,
    pub from: usize,
    pub to: usize,
    pub params: Params,
    pub side: Side,
}

// How far the tapes are used, and how many searches were made.
#[derive(Clone, Copy)]
pub struct Drawn {
    pub words: usize,
    pub thresholds: usize,
    pub searches: usize,
}

// A search's answer: the candidate held, if any, and how far the tapes are used after it. In one shape, so that what was drawn stands in one place.
pub type Search = Result<(Candidate, Drawn), BadDraw>;

// Whether a true side of k, or what it leaves of a node, is below the least leaf.
#[tactic(auto, unfolding(crate::specs::Flat::too_few))]
pub fn too_few(p: Params, a: Side, k: u32) -> bool
    requires { k ≤ a.count }
    ensures { result ≡ too_few p a k }
{
    k < p.leaf || a.count - k < p.leaf
}

pub fn proxy_in(a: Side, t: Totals) -> f64
    ensures { result ≡ proxy t (less a.totals t) }
{
    proxy_of(t, less_of(a.totals, t))
}

// A candidate at a place, whose true side has totals t and count k, against what is held.
pub fn judge_spot(p: Params, a: Side, s: Spot, t: Totals, k: u32, place: usize) -> Spot
    requires { k ≤ a.count }
    ensures moved { Moved s place result }
    ensures held { (c : ℕ → Cut) → held_of c result ≡ judge p (bare a) (held_of c s) t k (c place) }
{
    if too_few(p, a, k) {
        s
    } else {
        candidates::better_spot(s, place, proxy_in(a, t))
    }
}

// One feature of a node.
pub fn try_one(node: &NodeView, thresholds: &[f64], j: u32, h: Candidate, m: usize) -> Attempt
    requires node_asks { asks_in node.now }
    requires one { j < node.now.shape.features }
    requires rows { RowsOf node.now.shape.features (node_in node.now) h }
    ensures tried { (W : List ℕ) (s : ℕ) → meant_tries W thresholds.now s result
        ≡ try_one (tape node.now.params.features) node.now.params.splitter node.now.params (node_in node.now) j (record {
          best = h.held;
          left = left W thresholds.now s m;
        }) }
    ensures rows { RowsTried node.now.shape.features (node_in node.now) result }
{
    let base = j as usize * node.shape.rows;
    let col = Stretch {
        input: node.input,
        rows: &node.order[base + node.from..base + node.to],
        shape: node.shape,
        feature: j,
    };
    match node.params.splitter {
        Splitter::Best => Ok((crate::best::best_in(&col, node.params, node.side, h), m)),
        Splitter::Random => {
            crate::random::random_in(&col, thresholds, node.params, node.side, h, m)
        }
    }
}

// Does each of the words name a feature, of which there are as many, and none twice? N marks are enough for that.
fn each_once<const N: usize>(words: &[u32]) -> bool
    requires { length words.now ≤ N }
    ensures { result ≡ each_once (length words.now) words.now }
{
    let mut seen = [false; N];
    for w in words {
        let w = *w as usize;
        if words.len() <= w || seen[w] {
            return false;
        }
        seen[w] = true;
    }
    true
}

// Are the words a permutation of the features, of which there are as many? A search of few features clears few marks.
pub fn choice_good(words: &[u32]) -> bool
    requires { length words.now ≤ 1024 }
    ensures { result ≡ each_once (length words.now) words.now }
{
    if words.len() <= 64 {
        each_once::<64>(words)
    } else {
        each_once::<1024>(words)
    }
}

// The chosen features, tried one after the other.
pub fn try_all(node: &NodeView, choice: &[u32], thresholds: &[f64], m: usize) -> Attempt
    requires node_asks { asks_in node.now }
    requires features { Below node.now.shape.features choice.now }
    ensures tried { (W : List ℕ) (s : ℕ) → meant_tries W thresholds.now s result
        ≡ try_all (tape node.now.params.features) node.now.params (node_in node.now) choice.now (record {
          best = None;
          left = left W thresholds.now s m;
        }) }
    ensures rows { RowsTried node.now.shape.features (node_in node.now) result }
{
    let mut best = Candidate {
        held: None,
        rows: 0,
    };
    let mut used = m;
    for j in choice {
        (best, used) = try_one(node, thresholds, *j, best, used)?;
    }
    Ok((best, used))
}

// The search of a node whose rows lie from `from` to `to` in every column.
pub fn search_node(
    input: &Input,
    order: &[u32],
    tapes: &Tapes,
    shape: Shape,
    from: usize,
    to: usize,
    p: Params,
    a: Side,
    d: Drawn,
) -> Search
    requires node_asks { NodeAsks shape.rows shape.features from to (tables_in input.now) order.now a.count }
    requires same { shape.features ≡ p.features }
    requires most { shape.features ≤ 1024 }
    requires some { 0 < shape.features }
    requires fair { Fair tapes.now.words.now d }
    ensures { Searched p tapes.now.words.now tapes.now.thresholds.now
        (node_rows_at shape.rows shape.features from to (tables_in input.now) order.now a) d result }
{
    let features = shape.features;
    let words = &tapes.words[d.words..];
    if words.len() < features || !choice_good(&words[..features]) {
        return Err(BadDraw);
    }
    let tried = (p.tried as usize).min(features);
    let choice = &words[..tried];
    let node = NodeView {
        input: *input,
        order,
        shape,
        from,
        to,
        params: p,
        side: a,
    };
    let (h, m) = try_all(&node, choice, tapes.thresholds, d.thresholds)?;
    let after = Drawn {
        words: d.words + features,
        thresholds: m,
        searches: d.searches + 1,
    };
    Ok((h, after))
}
