// Where a listing is damaged first. A scan of a column stops at the first place that fails a test.
#![tactic(auto)]

ghost use Rattle.std.specs.Prelude.{◌≡◌, false, not, cond, ◌||◌, List, [], ℕ, ◌≤◌, ◌<◌, length, get_or, eqb};
ghost use Rattle.std.specs.Float.Ieee.{lt};
ghost use Rattle.rules.specs.Words.{member};
ghost use Rattle.rules.specs.Lent.{cell};
ghost use Rattle.rules.specs.Checks.{checked};
ghost use Rattle.rules.specs.Listing.{fault, lowest_lacking, tests_from, column_tests, order_tests};
ghost use Rattle.listings.specs.Asks.{Laid, Listed, Walkable};
ghost use Rattle.listings.specs.Walks.{with_row};
ghost use Rattle.std.specs.List.{position_or_len};

use rules::{Checked, Refusal, Shape};

// ---- the first fault of a column

fn fault_at(number: u32, column: usize, place: usize) -> Refusal
    requires { (column ≤ 65535) × (place ≤ 65535) }
    ensures { result ≡ fault number column place 0 }
{
    Refusal {
        number,
        part: column as u32,
        place: place as u32,
        row: 0,
    }
}

// Nothing comes before the first place.
fn below(place: usize, next: f64, last: f64) -> bool
    ensures { result ≡ cond (eqb place 0) false (lt next last) }
{
    place > 0 && next < last
}

// The first fault of feature j's listing, but for the row that it lacks. The marks are a local array: there is no heap, and lent flags may be
// too short and must stay as they were.
fn fault_in(listing: &[u32], values: &[f64], shape: Shape, j: usize) -> Checked
    requires { Walkable shape j values.now listing.now }
    ensures { result ≡ checked (tests_from shape.rows (cell shape.features values.now j) j 0 [] 0 listing.now) }
{
    let mut seen = [false; 65536];
    let mut last = 0.0;
    for (i, k) in listing.iter().enumerate() {
        let row = *k as usize;
        if shape.rows <= row {
            return Err(fault_at(11, j, i));
        }
        let next = slices::cell_at(values, shape.features, row, j);
        let twice = seen[row];
        if twice {
            return Err(fault_at(12, j, i));
        }
        if below(i, next, last) {
            return Err(fault_at(13, j, i));
        }
        seen[row] = true;
        last = next;
    }
    Ok(())
}

// ---- the lowest row that it lacks

fn mark(seen: &mut [bool], listing: &[u32])
    ensures { (k : ℕ) → k < length seen.old → get_or seen.new k false ≡ (get_or seen.old k false || member k listing.now) }
{
    for x in listing {
        let k = *x as usize;
        if k < seen.len() {
            seen[k] = true;
        }
    }
}

fn first_clear(seen: &[bool]) -> usize
    ensures { result ≡ position_or_len (λ b. not b) seen.now }
{
    seen.iter().position(|s| !*s).unwrap_or(seen.len())
}

fn lowest_lacking(listing: &[u32], rows: usize) -> u32
    requires { rows ≤ 65535 }
    ensures { result ≡ lowest_lacking rows listing.now }
{
    let mut seen = [false; 65536];
    mark(&mut seen, listing);
    first_clear(&seen[..rows]) as u32
}

// A row met before tells the lowest row lacking. It is sought when the scan for the fault has returned, so that the marks of one are on
// the stack at a time.
fn with_lacking(f: Refusal, listing: &[u32], rows: usize) -> Refusal
    requires { rows ≤ 65535 }
    ensures { result ≡ with_row (lowest_lacking rows listing.now) f }
{
    if f.number == 12 {
        Refusal {
            row: lowest_lacking(listing, rows),
            ..f
        }
    } else {
        f
    }
}

// ---- the first fault of all

// The first fault of feature j's listing.
fn column_fault(shape: Shape, values: &[f64], listings: &[u32], j: usize) -> Checked
    requires { Listed shape j values.now listings.now }
    ensures { result ≡ checked (column_tests shape values.now listings.now j) }
{
    let base = j * shape.rows;
    let listing = &listings[base..base + shape.rows];
    let found = fault_in(listing, values, shape, j);
    found.map_err(|f| with_lacking(f, listing, shape.rows))
}

// The first fault of the listings of all features.
pub fn first_fault(shape: Shape, values: &[f64], listings: &[u32]) -> Checked
    requires { Laid shape values.now listings.now }
    ensures { result ≡ checked (order_tests shape values.now listings.now) }
{
    for j in 0..shape.features {
        column_fault(shape, values, listings, j)?;
    }
    Ok(())
}
