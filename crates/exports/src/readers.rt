// Predictions, means and their error, importances.
ghost use Rattle.std.specs.Prelude.{◌≡◌};
ghost use Rattle.rules.specs.Lent.{outcome_of, columns_of};
ghost use Rattle.rules.specs.Table.{table_of};
ghost use Rattle.rules.specs.Answers.{reply_told, error_told, told};
ghost use Rattle.rules.specs.Reading.{predict_tree, forest_means, tree_importances, forest_importances};
ghost use Rattle.rules.specs.OutOfBag.{out_of_bag_means, out_of_bag_error};
ghost use Rattle.rules.specs.Plain.{scale_of, error_numbers};

use rules::{ErrorTold, Shape, Table, Trees};

pub fn tailboardy_predict_tree(
    rows: usize,
    features: usize,
    values: &[f64],
    value: &[f64],
    feature: &[u32],
    threshold: &[f64],
    score: &[f64],
    truechild: &[u32],
    falsechild: &[u32],
    out: &mut [f64],
) -> u32
    ensures { outcome_of result out.new
        ≡ told reply_told (predict_tree (record { rows = rows; features = features }) values.now
        (columns_of value.now feature.now threshold.now score.now truechild.now falsechild.now) out.old) }
{
    let table = Table {
        value,
        feature,
        threshold,
        score,
        truechild,
        falsechild,
    };
    let reply = predict::predict_tree(Shape { rows, features }, values, &table, out);
    c_types::number_of(reply)
}

pub fn tailboardy_forest_means(
    rows: usize,
    features: usize,
    trees: usize,
    values: &[f64],
    starts: &[u32],
    value: &[f64],
    feature: &[u32],
    threshold: &[f64],
    score: &[f64],
    truechild: &[u32],
    falsechild: &[u32],
    out: &mut [f64],
) -> u32
    ensures { outcome_of result out.new
        ≡ told reply_told (forest_means (record { rows = rows; features = features }) values.now (table_of trees starts.now
        (columns_of value.now feature.now threshold.now score.now truechild.now falsechild.now)) out.old) }
{
    let table = Table {
        value,
        feature,
        threshold,
        score,
        truechild,
        falsechild,
    };
    let forest = Trees {
        number: trees,
        starts,
        table,
    };
    let reply = means::forest_means(Shape { rows, features }, values, &forest, out);
    c_types::number_of(reply)
}

pub fn tailboardy_out_of_bag_means(
    rows: usize,
    features: usize,
    trees: usize,
    values: &[f64],
    counts: &[u32],
    starts: &[u32],
    value: &[f64],
    feature: &[u32],
    threshold: &[f64],
    score: &[f64],
    truechild: &[u32],
    falsechild: &[u32],
    out: &mut [f64],
) -> u32
    ensures { outcome_of result out.new
        ≡ told reply_told (out_of_bag_means (record { rows = rows; features = features }) values.now counts.now (table_of trees starts.now
        (columns_of value.now feature.now threshold.now score.now truechild.now falsechild.now)) out.old) }
{
    let table = Table {
        value,
        feature,
        threshold,
        score,
        truechild,
        falsechild,
    };
    let forest = Trees {
        number: trees,
        starts,
        table,
    };
    let reply = means::out_of_bag_means(Shape { rows, features }, values, counts, &forest, out);
    c_types::number_of(reply)
}

pub fn tailboardy_out_of_bag_error(rows: usize, targets: &[f64], means: &[f64]) -> ErrorTold
    ensures { error_numbers result ≡ error_told (out_of_bag_error rows targets.now means.now) }
{
    let reply = errors::out_of_bag_error(rows, targets, means);
    ErrorTold::from(reply)
}

pub fn tailboardy_tree_importances(
    features: usize,
    bymass: bool,
    mass: f64,
    value: &[f64],
    feature: &[u32],
    threshold: &[f64],
    score: &[f64],
    truechild: &[u32],
    falsechild: &[u32],
    out: &mut [f64],
) -> u32
    ensures { outcome_of result out.new
        ≡ told reply_told (tree_importances features (scale_of bymass mass)
        (columns_of value.now feature.now threshold.now score.now truechild.now falsechild.now) out.old) }
{
    let by = c_types::scale_of(bymass, mass);
    let table = Table {
        value,
        feature,
        threshold,
        score,
        truechild,
        falsechild,
    };
    let reply = importances::tree_importances(features, by, &table, out);
    c_types::number_of(reply)
}

pub fn tailboardy_forest_importances(
    features: usize,
    trees: usize,
    starts: &[u32],
    value: &[f64],
    feature: &[u32],
    threshold: &[f64],
    score: &[f64],
    truechild: &[u32],
    falsechild: &[u32],
    out: &mut [f64],
) -> u32
    ensures { outcome_of result out.new
        ≡ told reply_told (forest_importances features (table_of trees starts.now
        (columns_of value.now feature.now threshold.now score.now truechild.now falsechild.now)) out.old) }
{
    let table = Table {
        value,
        feature,
        threshold,
        score,
        truechild,
        falsechild,
    };
    let forest = Trees {
        number: trees,
        starts,
        table,
    };
    let reply = importances::forest_importances(features, &forest, out);
    c_types::number_of(reply)
}
