// The checks of all calls. They read shared slices and lengths alone, so that a refusal leaves all that was lent as it was.
#![tactic(auto)]

ghost use Rattle.std.specs.Prelude.{◌≡◌, true, [], ◌∷◌};
ghost use Rattle.rules.specs.Checks.{test, checked, within, rows_in, features_in, trees_in, shape_in, values_long, listings_long};

use rules::{Checked, Refusal, Shape};

pub mod forest;
pub mod inputs;
pub mod listing;
pub mod rooms;
pub mod tree;

// How long the rooms of a fit are: node room as the shortest of its eight columns, the waiting list as the shorter of its two.
#[derive(Clone, Copy)]
pub struct Lengths {
    pub nodes: usize,
    pub order: usize,
    pub scratch: usize,
    pub flags: usize,
    pub waiting: usize,
}

// How long a forest's report columns are.
#[derive(Clone, Copy)]
pub struct ReportLengths {
    pub nodes: usize,
    pub depth: usize,
    pub mass: usize,
    pub searches: usize,
    pub words: usize,
    pub thresholds: usize,
}

// A check that tells its number alone where it fails.
#[tactic(auto, unfolding(rules::specs::Checks::checked))]
pub fn need(number: u32, passes: bool) -> Checked
    ensures { result ≡ checked (test number passes ∷ []) }
{
    if passes {
        Ok(())
    } else {
        Err(Refusal {
            number,
            part: 0,
            place: 0,
            row: 0,
        })
    }
}

// ---- ranges

#[tactic(auto, unfolding(rules::specs::Checks::within))]
fn in_range(top: usize, n: usize) -> bool
    ensures { result ≡ within top n }
{
    1 <= n && n <= top
}

pub fn rows_in(n: usize) -> bool
    ensures { result ≡ rows_in n }
{
    in_range(65535, n)
}

pub fn features_in(n: usize) -> bool
    ensures { result ≡ features_in n }
{
    in_range(1024, n)
}

pub fn trees_in(n: usize) -> bool
    ensures { result ≡ trees_in n }
{
    in_range(1024, n)
}

pub fn shape_in(shape: Shape) -> bool
    ensures { result ≡ shape_in shape }
{
    rows_in(shape.rows) && features_in(shape.features)
}

// ---- lengths

pub fn values_long(shape: Shape, values: &[f64]) -> bool
    requires { shape_in shape ≡ true }
    ensures { result ≡ values_long shape values.now }
{
    values.len() == shape.rows * shape.features
}

pub fn listings_long(shape: Shape, listings: &[u32]) -> bool
    requires { shape_in shape ≡ true }
    ensures { result ≡ listings_long shape listings.now }
{
    listings.len() == shape.features * shape.rows
}
