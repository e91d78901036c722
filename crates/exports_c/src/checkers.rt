// Checks of listings and of tables, and a node read out.
ghost use Rattle.std.specs.Prelude.{◌≡◌};
ghost use Rattle.rules.specs.Lent.{columns_of};
ghost use Rattle.rules.specs.Answers.{check_told, reply_told, node_told};
ghost use Rattle.rules.specs.Listing.{check_listings};
ghost use Rattle.rules.specs.Table.{check_tree, check_forest, read_node, table_of};
ghost use Rattle.rules.specs.Plain.{node_numbers};

use rules::{NodeTold, Refusal};

#[unsafe(no_mangle)]
pub extern "C" fn tailboardy_check_listings(
    rows: usize,
    features: usize,
    values: &[f64],
    listings: &[u32],
) -> Refusal
    ensures { result ≡ check_told (check_listings (record { rows = rows; features = features }) values.now listings.now) }
{
    exports::checkers::tailboardy_check_listings(rows, features, values, listings)
}

#[unsafe(no_mangle)]
pub extern "C" fn tailboardy_check_tree(
    features: usize,
    value: &[f64],
    feature: &[u32],
    threshold: &[f64],
    score: &[f64],
    truechild: &[u32],
    falsechild: &[u32],
) -> u32
    ensures { result ≡ reply_told (check_tree features
        (columns_of value.now feature.now threshold.now score.now truechild.now falsechild.now)) }
{
    exports::checkers::tailboardy_check_tree(
        features, value, feature, threshold, score, truechild, falsechild,
    )
}

#[unsafe(no_mangle)]
pub extern "C" fn tailboardy_check_forest(
    features: usize,
    trees: usize,
    starts: &[u32],
    value: &[f64],
    feature: &[u32],
    threshold: &[f64],
    score: &[f64],
    truechild: &[u32],
    falsechild: &[u32],
) -> u32
    ensures { result ≡ reply_told (check_forest features (table_of trees starts.now
        (columns_of value.now feature.now threshold.now score.now truechild.now falsechild.now))) }
{
    exports::checkers::tailboardy_check_forest(
        features, trees, starts, value, feature, threshold, score, truechild, falsechild,
    )
}

#[unsafe(no_mangle)]
pub extern "C" fn tailboardy_read_node(
    features: usize,
    value: &[f64],
    feature: &[u32],
    threshold: &[f64],
    score: &[f64],
    truechild: &[u32],
    falsechild: &[u32],
    k: usize,
) -> NodeTold
    ensures { node_numbers result ≡ node_told (read_node features
        (columns_of value.now feature.now threshold.now score.now truechild.now falsechild.now) k) }
{
    exports::checkers::tailboardy_read_node(
        features, value, feature, threshold, score, truechild, falsechild, k,
    )
}
