// Importances: how much of the scores of a tree's splits, or of a forest's, falls to each feature.
#![tactic(auto)]

ghost use Rattle.std.specs.Prelude.{◌≡◌, length};
ghost use Rattle.rules.specs.Results.{Reply};
ghost use Rattle.rules.specs.Lent.{outcome_of, entries_at};
ghost use Rattle.rules.specs.Slices.{columns_in, forest_in};
ghost use Rattle.rules.specs.Table.{trees_of};
ghost use Rattle.rules.specs.Reading.{add_scores, scores_of, normalised, add_each, add_importances, tree_importances, forest_importances};
ghost use Rattle.tables.specs.Table.{TreeLies, TreesLie};

use rules::{Reply, Scale, Table, Trees};

// ---- one tree

// The scores of the n entries from place a on.
fn add_scores(v: &mut [f64], a: usize, n: usize, table: &Table)
    requires { TreeLies (length v.old) a n (columns_in table.now) }
    ensures { v.new ≡ add_scores v.old (entries_at (columns_in table.now) a n) }
{
    let feature = table.feature;
    let score = table.score;
    let truechild = table.truechild;
    let falsechild = table.falsechild;
    for k in 0..n {
        let at = a + k;
        scores::add_score(v, feature[at], score[at], truechild[at], falsechild[at]);
    }
}

fn score_tree(v: &mut [f64], a: usize, n: usize, table: &Table)
    requires { TreeLies (length v.old) a n (columns_in table.now) }
    ensures { v.new ≡ scores_of (length v.old) (entries_at (columns_in table.now) a n) }
{
    slices::fill(v, 0.0);
    add_scores(v, a, n, table);
}

// The importances of the tree that the columns hold: refusals 1, 6 and 8.
#[tactic(auto, unfolding(rules::specs::Reading::tree_importances, rules::specs::Reading::tree_importance_tests, rules::specs::Reading::reads, rules::specs::Table::tree_in, rules::specs::Checks::checked))]
pub fn tree_importances(features: usize, by: Scale, table: &Table, out: &mut [f64]) -> Reply
    ensures { outcome_of result out.new ≡ tree_importances features by (columns_in table.now) out.old }
{
    if !checks::features_in(features) {
        return Err(1);
    }
    if out.len() != features {
        return Err(6);
    }
    let n = table.len();
    if !tables::tree_good(features, 0, n, table) {
        return Err(8);
    }
    score_tree(out, 0, n, table);
    scores::scale(out, by);
    Ok(())
}

// ---- a forest

// A tree's normalised importances, made in `own`, are added to v.
fn add_tree(v: &mut [f64], own: &mut [f64], a: usize, n: usize, table: &Table)
    requires lies { TreeLies (length v.old) a n (columns_in table.now) }
    requires side { length own.old ≡ length v.old }
    ensures { v.new ≡ add_each v.old (normalised (scores_of (length v.old) (entries_at (columns_in table.now) a n))) }
{
    score_tree(own, a, n, table);
    scores::add_tree(v, own);
}

// Each tree lies between two starts. A function that gives both would be no plainer than the two lines that read them.
fn add_trees(v: &mut [f64], own: &mut [f64], forest: &Trees)
    requires lie { TreesLie (length v.old) (forest_in forest.now) }
    requires side { length own.old ≡ length v.old }
    ensures { v.new ≡ add_importances (length v.old) v.old (trees_of (forest_in forest.now)) }
{
    for t in 0..forest.number {
        let a = forest.starts[t] as usize;
        let e = forest.starts[t + 1] as usize;
        add_tree(v, own, a, e - a, &forest.table);
    }
}

// The importances of a forest: refusals 1, 6 and 8.
#[tactic(auto, using(crate::specs::Calls::from_noughts), unfolding(rules::specs::Reading::forest_importances, rules::specs::Reading::forest_importance_tests, rules::specs::Reading::reads, rules::specs::Checks::checked, rules::specs::Checks::within))]
pub fn forest_importances(features: usize, forest: &Trees, out: &mut [f64]) -> Reply
    ensures { outcome_of result out.new ≡ forest_importances features (forest_in forest.now) out.old }
{
    if !checks::features_in(features) || !checks::trees_in(forest.number) {
        return Err(1);
    }
    if out.len() != features || forest.starts.len() <= forest.number {
        return Err(6);
    }
    if !tables::forest_good(features, forest) {
        return Err(8);
    }
    let mut own: [f64; 1024] = [0.0; 1024];
    slices::fill(out, 0.0);
    add_trees(out, &mut own[..features], forest);
    scores::divide(out, slices::float_of(forest.number as u32));
    scores::normalise(out);
    Ok(())
}
