// What is lent to a fit: its lengths, its starts in the tapes, its numbers and its counts.
ghost use Rattle.std.specs.Prelude.{◌≡◌, ◌&&◌, ◌||◌, ◌≤◌, length, leb, eqb};
ghost use Rattle.std.specs.Float.Ieee.Scale.{finite};
ghost use Rattle.rules.specs.Words.{every, along};
ghost use Rattle.rules.specs.Lent.{unweighted};
ghost use Rattle.rules.specs.Slices.{given_in};
ghost use Rattle.rules.specs.Checks.{lengths, good_tape_starts, good_weight, numbers_good};
ghost use Rattle.checks.specs.Asks.{Ranges};

use rules::{Input, Shape};

// ---- lengths

// No weights at all, or one a row.
#[tactic(auto, using(criterion::specs::Weights::unweighted_is))]
pub fn weights_long(rows: usize, weights: &[f64]) -> bool
    ensures { result ≡ (unweighted weights.now || eqb (length weights.now) rows) }
{
    weights.is_empty() || weights.len() == rows
}

#[tactic(auto, unfolding(rules::specs::Checks::lengths))]
pub fn lengths_good(shape: Shape, trees: usize, input: &Input) -> bool
    requires { Ranges shape trees }
    ensures { result ≡ lengths shape trees (given_in input.now) }
{
    crate::values_long(shape, input.values)
        && input.targets.len() == shape.rows
        && weights_long(shape.rows, input.weights)
        && input.counts.len() == trees * shape.rows
        && crate::listings_long(shape, input.listings)
}

// ---- starts in the tapes

fn never_fall(starts: &[usize]) -> bool
    ensures { result ≡ along leb starts.now }
{
    starts.is_sorted()
}

// The rule of the starts of the parts of a tape of so many draws.
#[tactic(auto, using(crate::proofs::Defaults::first_entry, crate::proofs::Defaults::last_entry), unfolding(rules::specs::Checks::good_tape_starts))]
pub fn tape_starts_good(trees: usize, tape: usize, starts: &[usize]) -> bool
    requires { trees ≤ 1024 }
    ensures { result ≡ good_tape_starts trees tape starts.now }
{
    starts.len() == trees + 1 && starts[0] == 0 && never_fall(starts) && starts[trees] == tape
}

// ---- numbers

pub fn all_finite(xs: &[f64]) -> bool
    ensures { result ≡ every finite xs.now }
{
    xs.iter().all(|x| criterion::is_finite(*x))
}

pub fn weights_good(weights: &[f64]) -> bool
    ensures { result ≡ every good_weight weights.now }
{
    weights.iter().all(|w| criterion::weight_good(*w))
}

#[tactic(auto, unfolding(rules::specs::Checks::numbers_good))]
pub fn numbers_good(input: &Input) -> bool
    ensures { result ≡ numbers_good (given_in input.now) }
{
    all_finite(input.values) && all_finite(input.targets) && weights_good(input.weights)
}

// ---- counts

pub fn counts_low(counts: &[u32]) -> bool
    ensures { result ≡ every (λ k. leb k 65535) counts.now }
{
    counts.iter().all(|k| *k <= 65535)
}

// In a forest with weights every count is 1.
#[tactic(auto, using(criterion::specs::Weights::unweighted_is))]
pub fn counts_one(weights: &[f64], counts: &[u32]) -> bool
    ensures { result ≡ (unweighted weights.now || every (λ k. eqb k 1) counts.now) }
{
    weights.is_empty() || all_one(counts)
}

fn all_one(counts: &[u32]) -> bool
    ensures { result ≡ every (λ k. eqb k 1) counts.now }
{
    counts.iter().all(|k| *k == 1)
}
