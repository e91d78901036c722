// Best search: the sweep along a column, and the best candidate that it meets.
ghost use Rattle.std.specs.Prelude.{◌≡◌, ℕ, ◌+◌, ◌≤◌, ◌<◌, length};
ghost use Rattle.rules.specs.Search.{sweep, tally, best_in};
ghost use Rattle.candidates.specs.Held.{bare, HeldAt};
ghost use Rattle.search.specs.Flat.{step_in, cut_between, sweep_of, Sorted, Stepped, Stood, TriedOn};
ghost use Rattle.search.specs.Stretches.{shaped_in, elements_in, values_in, run_in, cuts_of, run_read, cuts_read};

use crate::column::{Cell, Readable, Stretch};
use candidates::{Candidate, Spot};
use criterion::{Side, no_rows, take_in, threshold_of};
use rules::{Cut, Height, Params, Totals};

// What is carried along a column: the rows before by totals and count, the value of the run of equals, what is held.
#[derive(Clone, Copy)]
pub struct Run {
    pub before: Totals,
    pub count: u32,
    pub last: f64,
    pub spot: Spot,
}

pub fn step_of(p: Params, a: Side, w: Run, e: Cell, place: usize) -> Run
    requires { w.count + e.count ≤ a.count }
    ensures stepped { Stepped w e place result }
    ensures sweep { (j : ℕ) (c : ℕ → Cut) → c place ≡ cut_between p.height j w.last e.value → sweep_of c result ≡ step_in p a j (sweep_of c w) e }
{
    let spot = candidates::anew(w.spot);
    let before = take_in(w.before, e.target, e.mass);
    let count = w.count + e.count;
    if e.value == w.last {
        Run {
            before,
            count,
            last: w.last,
            spot,
        }
    } else {
        Run {
            before,
            count,
            last: e.value,
            spot: crate::judge_spot(p, a, spot, w.before, w.count, place),
        }
    }
}

// The sweep of a column's stretch.
pub fn sweep_column(col: &Stretch, p: Params, a: Side, w: Run) -> Run
    requires room { w.count + tally (elements_in col.now) ≤ a.count }
    requires start { w.last ≡ run_in col.now 0 }
    ensures stood { Stood (values_in col.now) col.now.rows.now w.spot result.spot }
    ensures swept { (b : Cut) → sweep_of (cuts_of p.height col.now b) result
        ≡ sweep p (bare a) col.now.feature (sweep_of (cuts_of p.height col.now b) w) (elements_in col.now) }
{
    // By value, so that its slices stay in registers along the column.
    let lent = *col;
    let mut v = w;
    for (i, r) in lent.rows.iter().enumerate() {
        v = step_of(p, a, v, lent.cell(*r as usize), i + 1);
    }
    v
}

impl<'a> Stretch<'a> {
    // Its values, for those who read nothing else. It stands apart from the type, since what a type's file cites can't speak of that type.
    pub fn readable(&self) -> Readable<'a>
        ensures input { result.input ≡ self.now.input }
        ensures rows { result.rows ≡ self.now.rows }
        ensures shape { result.shape ≡ self.now.shape }
        ensures feature { result.feature ≡ self.now.feature }
        ensures shaped { shaped_in result }
    {
        Readable {
            input: self.input,
            rows: self.rows,
            shape: self.shape,
            feature: self.feature,
        }
    }
}

// The value of the run of equals that ends before place n, its first, from the column's start on.
fn run_anew(col: &Readable, n: usize) -> f64
    requires { n < length col.now.rows.now }
    ensures { result ≡ run_read col.now n }
{
    let mut v = col.value(0);
    for i in 0..n {
        v = candidates::run_on(v, col.value(i));
    }
    v
}

// The same. Values that are equal differ only where they are zeros: any other is the same as the last of its run, which is read first.
fn run_before(col: &Readable, n: usize) -> f64
    requires { n < length col.now.rows.now }
    ensures { result ≡ run_read col.now n }
{
    if 0 < n {
        let v = col.value(n - 1);
        if v != 0.0 {
            return v;
        }
    }
    run_anew(col, n)
}

// What is held once the column is swept: if the place of s is in it, the values there are read again.
pub fn held_of(col: &Readable, height: Height, h: Candidate, s: Spot) -> Candidate
    requires { s.place ≤ length col.now.rows.now }
    ensures { (b : Cut) → HeldAt h s (cuts_read height col.now b s.place) result }
{
    if s.place == 0 {
        return h;
    }
    let i = s.place - 1;
    let low = run_before(col, i);
    let high = col.value(i);
    let cut = Cut {
        feature: col.feature,
        threshold: threshold_of(height, low, high),
    };
    candidates::held_at(h, s, cut)
}

// The best splitter along a column's stretch.
pub fn best_in(col: &Stretch, p: Params, a: Side, h: Candidate) -> Candidate
    requires room { tally (elements_in col.now) ≤ a.count }
    requires sorted { Sorted col.now.feature (elements_in col.now) }
    ensures best { result.held ≡ best_in p (bare a) col.now.feature h.held (elements_in col.now) }
    ensures tried { TriedOn col.now.feature (elements_in col.now) h result }
{
    if col.rows.len() == 0 {
        return h;
    }
    let w = Run {
        before: no_rows(),
        count: 0,
        last: col.value(0),
        spot: candidates::spot_of(h.held),
    };
    let v = sweep_column(col, p, a, w);
    held_of(&col.readable(), p.height, h, v.spot)
}
