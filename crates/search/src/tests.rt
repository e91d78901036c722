// Two rows of one feature: the cut between them, its sides, and a threshold off the tape. The numbers are worked out by hand.
use super::*;
use crate::best::Run;
use crate::column::Cell;
use crate::random::TrueSide;
use rules::Height;
use std::test::Fail;

const PARAMS: Params = Params {
    limit: 1,
    leaf: 1,
    split: 2,
    tried: 1,
    features: 1,
    splitter: Splitter::Best,
    height: Height::Midpoint,
};

const NODE: Side = Side {
    totals: Totals {
        sum: 6.0,
        mass: 2.0,
    },
    count: 2,
};

const NOTHING: Candidate = Candidate {
    held: None,
    rows: 0,
};

fn sure(of: &'static str, holds: bool) -> Result<(), &'static str> {
    if holds { Ok(()) } else { Err(of) }
}

fn second_row(e: Cell) -> bool {
    e.count == 1 && e.mass == 1.0 && e.target == 6.0 && e.value == 2.0
}

// The spot is that of the row above the cut.
fn both_rows(v: Run) -> bool {
    let (t, s) = (v.before, v.spot);
    let rows = t.sum == 6.0 && t.mass == 2.0 && v.count == 2 && v.last == 2.0;
    rows && s.held && s.proxy == 36.0 && s.place == 2
}

fn first_row(s: TrueSide) -> bool {
    let t = s.side.totals;
    t.sum == 0.0 && t.mass == 1.0 && s.side.count == 1 && s.rows == 1
}

// One row on the true side.
fn cut_at(h: Candidate, t: f64) -> bool {
    h.rows == 1 && matches!(h.held, Some((c, x)) if c.feature == 0 && c.threshold == t && x == 36.0)
}

fn drawn(a: Attempt) -> bool {
    matches!(a, Ok((h, 1)) if cut_at(h, 1.25))
}

#[test]
#[tactic(auto, unfolding(rules::specs::Words::total, rules::specs::Fit::element_in, rules::specs::Lent::count_in, rules::specs::Lent::cell, rules::specs::Lent::values_at, crate::specs::Flat::run_at))]
fn two_rows_are_searched() -> Result<(), Fail> {
    let col = Stretch {
        input: Input {
            values: &[1.0, 2.0],
            targets: &[0.0, 6.0],
            weights: &[],
            counts: &[1, 1],
            listings: &[],
        },
        rows: &[0, 1],
        shape: Shape {
            rows: 2,
            features: 1,
        },
        feature: 0,
    };
    sure(
        "values",
        col.value(1) == 2.0 && col.readable().value(0) == 1.0,
    )?;
    sure("a cell", second_row(col.cell(1)))?;
    let start = Run {
        before: criterion::no_rows(),
        count: 0,
        last: 1.0,
        spot: candidates::spot_of(None),
    };
    let v = best::sweep_column(&col, PARAMS, NODE, start);
    sure("a sweep", both_rows(v))?;
    let b = best::best_in(&col, PARAMS, NODE, NOTHING);
    sure("the best cut", cut_at(b, 1.5))?;
    sure("its true side", first_row(random::true_side(&col, 1.5)))?;
    let d = random::draw_in(&col, &[1.25], PARAMS, NODE, NOTHING, 0, 1.0, 2.0);
    sure("a draw", drawn(d))?;
    let r = random::random_in(&col, &[1.25], PARAMS, NODE, NOTHING, 0);
    sure("a drawn cut", drawn(r))?;
    let e = random::random_in(&col, &[], PARAMS, NODE, NOTHING, 0);
    sure("an empty tape", matches!(e, Err(BadDraw)))?;
    Ok(())
}
