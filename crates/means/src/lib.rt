// The calls that take means of a forest: their checks, then the means.
#![tactic(auto)]

ghost use Rattle.std.specs.Prelude.{◌≡◌, map};
ghost use Rattle.rules.specs.Words.{from};
ghost use Rattle.rules.specs.Lent.{outcome_of};
ghost use Rattle.rules.specs.Slices.{forest_in};
ghost use Rattle.rules.specs.Checks.{first_failed};
ghost use Rattle.rules.specs.Reading.{reads, forest_means};
ghost use Rattle.rules.specs.OutOfBag.{out_of_bag_mean, out_of_bag_means};
ghost use Rattle.checks.specs.Asks.{Ranges};
ghost use Rattle.means.specs.Means.{table_tests};

use crate::sums::Sample;
use rules::{Reply, Shape, Trees};

pub mod sums;

// What both calls end with: refusals 2, 6 and 8, then the means.
#[tactic(auto, unfolding(rules::specs::Reading::reads, rules::specs::Checks::checked))]
fn table_means(
    shape: Shape,
    values: &[f64],
    counts: &[u32],
    forest: &Trees,
    out: &mut [f64],
) -> Reply
    requires { Ranges shape forest.now.number }
    ensures { outcome_of result out.new
        ≡ reads (first_failed (table_tests shape values.now (forest_in forest.now) out.old))
        (map (out_of_bag_mean shape values.now counts.now (forest_in forest.now)) (from 0 shape.rows)) out.old }
{
    if !checks::values_long(shape, values) {
        return Err(2);
    }
    if out.len() != shape.rows || forest.starts.len() <= forest.number {
        return Err(6);
    }
    if !tables::forest_good(shape.features, forest) {
        return Err(8);
    }
    let sample = Sample {
        shape,
        values,
        counts,
    };
    crate::sums::means(out, &sample, forest);
    Ok(())
}

// Each row's mean over the trees of a forest, which is one without counts: refusals 1, 2, 6 and 8.
#[tactic(auto, using(crate::specs::Means::all_means), unfolding(rules::specs::Reading::forest_means, rules::specs::Reading::mean_tests, rules::specs::Reading::reads, rules::specs::Checks::checked))]
pub fn forest_means(shape: Shape, values: &[f64], forest: &Trees, out: &mut [f64]) -> Reply
    ensures { outcome_of result out.new ≡ forest_means shape values.now (forest_in forest.now) out.old }
{
    if !checks::forest::forest_in(shape, forest.number) {
        return Err(1);
    }
    table_means(shape, values, &[], forest, out)
}

// Each row's mean over the trees whose bags it is out of, a NaN where there is none: refusals 1, 9, 10, 2, 6 and 8.
#[tactic(auto, unfolding(rules::specs::OutOfBag::out_of_bag_means, rules::specs::OutOfBag::out_tests, rules::specs::Reading::reads, rules::specs::Checks::checked))]
pub fn out_of_bag_means(
    shape: Shape,
    values: &[f64],
    counts: &[u32],
    forest: &Trees,
    out: &mut [f64],
) -> Reply
    ensures { outcome_of result out.new ≡ out_of_bag_means shape values.now counts.now (forest_in forest.now) out.old }
{
    if !checks::forest::forest_in(shape, forest.number) {
        return Err(1);
    }
    if counts.len() == 0 {
        return Err(9);
    }
    if counts.len() != forest.number * shape.rows {
        return Err(10);
    }
    table_means(shape, values, counts, forest, out)
}
