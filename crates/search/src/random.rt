// Random search: one threshold drawn between the lowest value and the highest, and the side that passes its test.
ghost use Rattle.std.specs.Prelude.{◌≡◌, List, ℕ, ◌+◌, ◌≤◌, ◌<◌, length};
ghost use Rattle.rules.specs.Draws.{tape};
ghost use Rattle.rules.specs.Search.{tally, random_in};
ghost use Rattle.candidates.specs.Held.{bare};
ghost use Rattle.search.specs.Flat.{side_step, true_on, meant_tries, left, draw_at, TriedBy};
ghost use Rattle.search.specs.Stretches.{elements_in};

use crate::column::{Cell, Stretch};
use crate::{Attempt, BadDraw};
use candidates::Candidate;
use criterion::Side;
use rules::{Cut, Params};

// The true side of a cut: its totals and count, and how many rows it has.
#[derive(Clone, Copy)]
pub struct TrueSide {
    pub side: Side,
    pub rows: usize,
}

// One more row of a column, which joins where it is on the true side of t.
#[tactic(auto, unfolding(crate::specs::Flat::side_step))]
pub fn joined_if(s: TrueSide, e: Cell, t: f64) -> TrueSide
    requires { (s.side.count + e.count < 4294967296) × (s.rows + 1 < 18446744073709551616) }
    ensures { result ≡ side_step t s e }
{
    if e.value <= t {
        TrueSide {
            side: criterion::join(s.side, e.target, e.mass, e.count),
            rows: s.rows + 1,
        }
    } else {
        s
    }
}

// The true side of a column's stretch, by threshold t.
pub fn true_side(col: &Stretch, t: f64) -> TrueSide
    requires room { tally (elements_in col.now) < 4294967296 }
    ensures same { result ≡ true_on (record { feature = col.now.feature; threshold = t }) (elements_in col.now) }
    ensures count { result.side.count ≤ tally (elements_in col.now) }
    ensures rows { result.rows ≤ length col.now.rows.now }
{
    // By value, so that its slices stay in registers along the column.
    let lent = *col;
    let mut s = TrueSide {
        side: criterion::no_side(),
        rows: 0,
    };
    for r in lent.rows {
        s = joined_if(s, lent.cell(*r as usize), t);
    }
    s
}

// A threshold off the tape, judged by the side that it makes. lo is the stretch's lowest value, hi its highest.
pub fn draw_in(
    col: &Stretch,
    thresholds: &[f64],
    p: Params,
    a: Side,
    h: Candidate,
    m: usize,
    lo: f64,
    hi: f64,
) -> Attempt
    requires room { tally (elements_in col.now) ≤ a.count }
    ensures drawn { (W : List ℕ) (s : ℕ) → meant_tries W thresholds.now s result
        ≡ draw_at p (bare a) col.now.feature h.held (elements_in col.now) (left W thresholds.now s m) lo hi }
    ensures tried { TriedBy col.now.feature (elements_in col.now) h result }
{
    if thresholds.len() <= m {
        return Err(BadDraw);
    }
    let t = thresholds[m];
    if !candidates::in_reach(lo, t, hi) {
        return Err(BadDraw);
    }
    let cut = Cut {
        feature: col.feature,
        threshold: t,
    };
    let s = true_side(col, t);
    let spot = candidates::spot_of(h.held);
    let next = crate::judge_spot(p, a, spot, s.side.totals, s.side.count, s.rows + 1);
    Ok((candidates::held_at(h, next, cut), m + 1))
}

// The random splitter along a column's stretch.
pub fn random_in(
    col: &Stretch,
    thresholds: &[f64],
    p: Params,
    a: Side,
    h: Candidate,
    m: usize,
) -> Attempt
    requires room { tally (elements_in col.now) ≤ a.count }
    ensures drawn { (W : List ℕ) (s : ℕ) → meant_tries W thresholds.now s result ≡ random_in (tape p.features) p (bare a) col.now.feature (record {
      best = h.held;
      left = left W thresholds.now s m;
    }) (elements_in col.now) }
    ensures tried { TriedBy col.now.feature (elements_in col.now) h result }
{
    let n = col.rows.len();
    if n == 0 {
        return Ok((h, m));
    }
    let lo = col.value(0);
    let hi = col.value(n - 1);
    if lo < hi {
        draw_in(col, thresholds, p, a, h, m, lo, hi)
    } else {
        Ok((h, m))
    }
}
