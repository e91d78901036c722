// The small choices of a growth: which node is searched, which threshold counts, which value a run of equals has, and which candidate is held.
#![tactic(auto)]

ghost use Rattle.std.specs.Prelude.{◌≡◌, cond, ◌&&◌, ◌||◌, ℕ};
ghost use Rattle.std.specs.Float.Ieee.{le, lt, eq};
ghost use Rattle.rules.specs.Search.{better};
ghost use Rattle.rules.specs.Growth.{searchable};
ghost use Rattle.candidates.specs.Held.{bare, held_of, earlier_of, Moved, HeldAt};

use criterion::Side;
use rules::{Cut, Held, Params};

// What is held, by what decides: whether there is a cut, its proxy, and its place: 0 if it is an earlier column's, else one more than the place of the first row past it.
// A place is chosen without a branch, which the values beside it could not be; they are read again after the column. For that speed it is a flag beside values, and no Option.
#[derive(Clone, Copy)]
pub struct Spot {
    pub held: bool,
    pub proxy: f64,
    pub place: usize,
}

// The candidate that a search holds, if any, and how many rows of its column are on the true side. They stand beside `Held` and not in it: that is a type of the rules.
#[derive(Clone, Copy)]
pub struct Candidate {
    pub held: Held,
    pub rows: usize,
}

// ---- which node is searched

// Whether a node is searched: its level is below the limit, and its count reaches the least split.
#[tactic(auto, unfolding(rules::specs::Growth::searchable))]
pub fn is_searched(p: Params, level: u32, a: Side) -> bool
    ensures { result ≡ searchable p level (bare a) }
{
    level < p.limit && p.split <= a.count
}

// Whether one of two children is.
pub fn either_searched(p: Params, level: u32, a: Side, b: Side) -> bool
    ensures { result ≡ (searchable p level (bare a) || searchable p level (bare b)) }
{
    is_searched(p, level, a) || is_searched(p, level, b)
}

// ---- which threshold counts

// Whether t lies from the lowest value on and below the highest.
pub fn in_reach(lo: f64, t: f64, hi: f64) -> bool
    ensures { result ≡ (le lo t && lt t hi) }
{
    lo <= t && t < hi
}

// The value of a run of equals after e: v goes on as its first, or e begins a new one.
pub fn run_on(v: f64, e: f64) -> f64
    ensures { result ≡ cond (eq e v) v e }
{
    if e == v { v } else { e }
}

// ---- which candidate is held

// What a column's sweep begins with: the proxy of what is held, at the place of an earlier column. It is no conversion, since the cut stays behind.
#[tactic(auto, unfolding(crate::specs::Held::held_of))]
pub fn spot_of(h: Held) -> Spot
    ensures earlier { result.place ≡ 0 }
    ensures same { (c : ℕ → Cut) → c 0 ≡ earlier_of h → held_of c result ≡ h }
{
    match h {
        None => Spot {
            held: false,
            proxy: 0.0,
            place: 0,
        },
        Some((_, q)) => Spot {
            held: true,
            proxy: q,
            place: 0,
        },
    }
}

// What is held, field by field: a copy of the whole would carry the bytes between its fields from row to row, through memory.
pub fn anew(s: Spot) -> Spot
    ensures { result ≡ s }
{
    Spot {
        held: s.held,
        proxy: s.proxy,
        place: s.place,
    }
}

// The greater proxy of two, the held one first: also where one is a NaN, of which `max` gives the other.
pub fn greater(p: f64, q: f64) -> f64
    ensures { result ≡ cond (lt p q) q p }
{
    if p < q { q } else { p }
}

// A candidate at a place, of proxy q, against what is held. The place is chosen without a branch once it is compiled. It returns early for speed: from one expression the compiler makes the test of `held` after the choice, and a sweep took a twentieth longer.
#[tactic(auto, unfolding(crate::specs::Held::held_of, rules::specs::Search::better))]
pub fn better_spot(s: Spot, place: usize, q: f64) -> Spot
    ensures moved { Moved s place result }
    ensures held { (c : ℕ → Cut) → held_of c result ≡ better (held_of c s) (c place) q }
{
    if s.held {
        return Spot {
            held: true,
            proxy: greater(s.proxy, q),
            place: if s.proxy < q { place } else { s.place },
        };
    }
    Spot {
        held: true,
        proxy: q,
        place,
    }
}

// What is held once a column was tried: the cut c that it has at the place of s, with the rows before that place, which are its true side; or what was held before the column.
pub fn held_at(h: Candidate, s: Spot, c: Cut) -> Candidate
    ensures { HeldAt h s c result }
{
    if s.place == 0 {
        h
    } else {
        Candidate {
            held: Some((c, s.proxy)),
            rows: s.place - 1,
        }
    }
}
