// The table check: refusal 8, the calls that make it alone, and a node read out.
#![tactic(auto)]

ghost use Rattle.std.specs.Prelude.{◌≡◌, ◌&&◌, ◌<◌, eqb, leb, ltb, length, get_or};
ghost use Rattle.rules.specs.Words.{every, along};
ghost use Rattle.rules.specs.Lent.{Columns, entries_at, shortest};
ghost use Rattle.rules.specs.Slices.{columns_in, forest_in};
ghost use Rattle.rules.specs.Checks.{features_in, trees_in};
ghost use Rattle.rules.specs.Table.{good_tree, table_of, starts_good, trees_of, good_forest, check_tree, check_forest, read_node};
ghost use Rattle.tables.specs.Table.{Within, Started, Lying};

use rules::{NodeReply, Reply, Table, Trees};

// The n entries from place a on, as a tree.
// Every node is asked and the answers are joined without a branch, which is faster than `all` that stops at the first bad one (docs/SPEED.md).
pub fn tree_good(features: usize, a: usize, n: usize, table: &Table) -> bool
    requires { Within (columns_in table.now) a n }
    ensures { result ≡ good_tree features (entries_at (columns_in table.now) a n) }
{
    let feature = table.feature;
    let truechild = table.truechild;
    let falsechild = table.falsechild;
    let mut good = 0 < n;
    for k in 0..n {
        let at = a + k;
        let one = entries::entry_good(features, n, k, feature[at], truechild[at], falsechild[at]);
        good = good & one;
    }
    good
}

// ---- a forest

// Whether each start is above the one before.
fn starts_rise(starts: &[u32]) -> bool
    ensures { result ≡ along ltb starts.now }
{
    starts.is_sorted_by(|a, b| a < b)
}

// The start table's rule, over its part that is looked at: from 0, each above the one before, the last no further than n.
fn rises_to(starts: &[u32], last: usize, n: usize) -> bool
    requires { last < length starts.now }
    ensures { result ≡ (eqb (get_or starts.now 0 0) 0 && (along ltb starts.now && leb (get_or starts.now last 0) n)) }
{
    starts[0] == 0 && starts_rise(starts) && starts[last] as usize <= n
}

// n is how far the columns reach.
pub fn starts_good(trees: usize, starts: &[u32], n: usize) -> bool
    requires { Started trees starts.now }
    ensures { (c : Columns) → shortest c ≡ n → result ≡ starts_good (table_of trees starts.now c) }
{
    rises_to(&starts[..trees + 1], trees, n)
}

// Each tree between its two starts.
pub fn trees_good(features: usize, forest: &Trees) -> bool
    requires { Lying (forest_in forest.now) }
    ensures { result ≡ every (good_tree features) (trees_of (forest_in forest.now)) }
{
    for t in 0..forest.number {
        let a = forest.starts[t] as usize;
        let e = forest.starts[t + 1] as usize;
        if !tree_good(features, a, e - a, &forest.table) {
            return false;
        }
    }
    true
}

#[tactic(auto, unfolding(rules::specs::Table::good_forest))]
pub fn forest_good(features: usize, forest: &Trees) -> bool
    requires { Started forest.now.number forest.now.starts.now }
    ensures { result ≡ good_forest features (forest_in forest.now) }
{
    starts_good(forest.number, forest.starts, forest.table.len()) && trees_good(features, forest)
}

// ---- the calls

// Whether six columns hold a good tree, which is all that is lent: refusals 1 and 8.
#[tactic(auto, unfolding(rules::specs::Table::check_tree, rules::specs::Table::tree_table_tests, rules::specs::Table::tree_in, rules::specs::Checks::checked, rules::specs::Checks::replies))]
pub fn check_tree(features: usize, table: &Table) -> Reply
    ensures { result ≡ check_tree features (columns_in table.now) }
{
    if !checks::features_in(features) {
        return Err(1);
    }
    if !tree_good(features, 0, table.len(), table) {
        return Err(8);
    }
    Ok(())
}

// Refusal 1 asks of both numbers.
fn forest_in(features: usize, trees: usize) -> bool
    ensures { result ≡ (features_in features && trees_in trees) }
{
    checks::features_in(features) && checks::trees_in(trees)
}

// Whether a start table and six columns hold a good forest: refusals 1, 6 and 8.
#[tactic(auto, unfolding(rules::specs::Table::check_forest, rules::specs::Table::forest_table_tests, rules::specs::Checks::checked, rules::specs::Checks::replies, rules::specs::Checks::within))]
pub fn check_forest(features: usize, forest: &Trees) -> Reply
    ensures { result ≡ check_forest features (forest_in forest.now) }
{
    if !forest_in(features, forest.number) {
        return Err(1);
    }
    if forest.starts.len() <= forest.number {
        return Err(6);
    }
    if !forest_good(features, forest) {
        return Err(8);
    }
    Ok(())
}

// ---- a node read out

// Node k of a good tree, if it has one: refusals 1 and 8.
pub fn read_node(features: usize, table: &Table, k: usize) -> NodeReply
    ensures { result ≡ read_node features (columns_in table.now) k }
{
    check_tree(features, table)?;
    if table.len() <= k {
        return Ok(None);
    }
    let node = entries::node_of(
        table.value[k],
        table.feature[k],
        table.threshold[k],
        table.score[k],
        table.truechild[k],
        table.falsechild[k],
    );
    Ok(Some(node))
}
