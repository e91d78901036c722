// The error of out-of-bag means.
#![tactic(auto)]

ghost use Rattle.std.specs.Prelude.{◌≡◌, ◌≤◌, not, cond, length};
ghost use Rattle.std.specs.Float.{binary64};
ghost use Rattle.std.specs.Float.Ieee.{add, is_nan};
ghost use Rattle.rules.specs.Words.{nought};
ghost use Rattle.rules.specs.OutOfBag.{square_off, add_squares, rows_with_mean, out_of_bag_error};

use rules::{ErrorReply, Figure};

fn is_mean(m: f64) -> bool
    ensures { result ≡ not (is_nan m) }
{
    !m.is_nan()
}

fn rows_with_mean(means: &[f64]) -> usize
    ensures exact { result ≡ rows_with_mean means.now }
    ensures few { result ≤ length means.now }
{
    means.iter().filter(|m| is_mean(**m)).count()
}

// A row without a mean adds nothing.
#[tactic(auto, unfolding(rules::specs::OutOfBag::square_off))]
fn with_square(s: f64, y: f64, m: f64) -> f64
    ensures { result ≡ cond (is_nan m) s (add binary64 s (square_off y m)) }
{
    if is_mean(m) {
        let d = y - m;
        s + d * d
    } else {
        s
    }
}

// Row after row, from +0 on: the library's sum of floats starts at -0.
fn sum_squares(targets: &[f64], means: &[f64]) -> f64
    ensures { result ≡ add_squares nought targets.now means.now }
{
    targets
        .iter()
        .zip(means)
        .fold(0.0, |s, (y, m)| with_square(s, *y, *m))
}

// The mean squared error over the rows that have a mean, and their number: refusals 1, 2 and 18.
#[tactic(auto, unfolding(rules::specs::OutOfBag::out_of_bag_error, rules::specs::OutOfBag::errs, rules::specs::OutOfBag::error_tests, rules::specs::OutOfBag::figure, rules::specs::Checks::checked, rules::specs::Checks::within))]
pub fn out_of_bag_error(rows: usize, targets: &[f64], means: &[f64]) -> ErrorReply
    ensures { result ≡ out_of_bag_error rows targets.now means.now }
{
    if !checks::rows_in(rows) {
        return Err(1);
    }
    if targets.len() != rows || means.len() != rows {
        return Err(2);
    }
    let counted = rows_with_mean(means);
    if counted == 0 {
        return Err(18);
    }
    let n = counted as u32;
    Ok(Figure {
        error: sum_squares(targets, means) / slices::float_of(n),
        rows: n,
    })
}
