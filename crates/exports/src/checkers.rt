// Checks of listings and of tables, and a node read out.
ghost use Rattle.std.specs.Prelude.{◌≡◌};
ghost use Rattle.rules.specs.Lent.{columns_of};
ghost use Rattle.rules.specs.Answers.{check_told, reply_told, node_told};
ghost use Rattle.rules.specs.Listing.{check_listings};
ghost use Rattle.rules.specs.Table.{check_tree, check_forest, read_node, table_of};
ghost use Rattle.rules.specs.Plain.{node_numbers};

use rules::{NodeTold, Refusal, Shape, Table, Trees};

pub fn tailboardy_check_listings(
    rows: usize,
    features: usize,
    values: &[f64],
    listings: &[u32],
) -> Refusal
    ensures { result ≡ check_told (check_listings (record { rows = rows; features = features }) values.now listings.now) }
{
    let answer = checks::listing::check_listings(Shape { rows, features }, values, listings);
    Refusal::from(answer)
}

pub fn tailboardy_check_tree(
    features: usize,
    value: &[f64],
    feature: &[u32],
    threshold: &[f64],
    score: &[f64],
    truechild: &[u32],
    falsechild: &[u32],
) -> u32
    ensures { result ≡ reply_told (check_tree features
        (columns_of value.now feature.now threshold.now score.now truechild.now falsechild.now)) }
{
    let table = Table {
        value,
        feature,
        threshold,
        score,
        truechild,
        falsechild,
    };
    let reply = tables::check_tree(features, &table);
    c_types::number_of(reply)
}

pub fn tailboardy_check_forest(
    features: usize,
    trees: usize,
    starts: &[u32],
    value: &[f64],
    feature: &[u32],
    threshold: &[f64],
    score: &[f64],
    truechild: &[u32],
    falsechild: &[u32],
) -> u32
    ensures { result ≡ reply_told (check_forest features (table_of trees starts.now
        (columns_of value.now feature.now threshold.now score.now truechild.now falsechild.now))) }
{
    let table = Table {
        value,
        feature,
        threshold,
        score,
        truechild,
        falsechild,
    };
    let forest = Trees {
        number: trees,
        starts,
        table,
    };
    let reply = tables::check_forest(features, &forest);
    c_types::number_of(reply)
}

pub fn tailboardy_read_node(
    features: usize,
    value: &[f64],
    feature: &[u32],
    threshold: &[f64],
    score: &[f64],
    truechild: &[u32],
    falsechild: &[u32],
    k: usize,
) -> NodeTold
    ensures { node_numbers result ≡ node_told (read_node features
        (columns_of value.now feature.now threshold.now score.now truechild.now falsechild.now) k) }
{
    let table = Table {
        value,
        feature,
        threshold,
        score,
        truechild,
        falsechild,
    };
    let reply = tables::read_node(features, &table, k);
    c_types::node_told_of(reply)
}
