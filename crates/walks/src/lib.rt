// Rows walked through a tree to their leaves: one at a time, or six side by side.
#![tactic(auto)]

ghost use Rattle.std.specs.Prelude.{◌≡◌, map, length, get_or};
ghost use Rattle.std.specs.List.{sum_by};
ghost use Rattle.rules.specs.Words.{from};
ghost use Rattle.rules.specs.Lent.{entries_at};
ghost use Rattle.rules.specs.Slices.{columns_in};
ghost use Rattle.walks.specs.Walks.{Walkable, leaf_at};
ghost use Rattle.walks.specs.Steps.{step_of, Steppable};
ghost use Rattle.walks.specs.Sixes.{Among, SixSteppable, SixStepped, SixRead, SixWalkable};

use rules::Table;

// ---- one row

// What row i comes to in the tree of n nodes from place a on.
pub fn row_value(
    i: usize,
    features: usize,
    a: usize,
    n: usize,
    values: &[f64],
    table: &Table,
) -> f64
    requires { Walkable features a n i values.now (columns_in table.now) }
    ensures { result ≡ leaf_at features values.now (entries_at (columns_in table.now) a n) i }
{
    let feature = table.feature;
    let threshold = table.threshold;
    let truechild = table.truechild;
    let base = i * features;
    let mut k: usize = 0;
    while truechild[a + k] != 0 {
        let at = a + k;
        let j = base + feature[at] as usize;
        k = entries::child_of(values[j], threshold[at], truechild[at]);
    }
    table.value[a + k]
}

// ---- six rows side by side

// Where row i is after node k. A row at a leaf takes this step too while others go on, and a leaf's feature may be any number, so it is kept within the row.
fn step(i: usize, k: usize, features: usize, values: &[f64], table: &Table) -> usize
    requires { Steppable features i k values.now (columns_in table.now) }
    ensures { result ≡ step_of features values.now (columns_in table.now) i k }
{
    let j = (table.feature[k] as usize).min(features - 1);
    let x = slices::cell_at(values, features, i, j);
    entries::next_of(k, x, table.threshold[k], table.truechild[k])
}

// A step of each.
fn steps(six: &mut [usize; 6], i: usize, features: usize, values: &[f64], table: &Table)
    requires { SixSteppable features i six.old values.now (columns_in table.now) }
    ensures { SixStepped features i six.old values.now (columns_in table.now) six.new }
{
    for (j, k) in six.iter_mut().enumerate() {
        *k = step(i + j, *k, features, values, table);
    }
}

// The true children of six nodes, added up: 0 if all six are leaves.
fn children(six: &[usize; 6], truechild: &[u32]) -> usize
    requires { Among (length truechild.now) six.now }
    ensures { result ≡ sum_by (λ k. get_or truechild.now k 0) six.now }
{
    let mut sum = 0;
    for k in six.iter() {
        sum += truechild[*k] as usize;
    }
    sum
}

// What stands at six nodes.
fn values_of(six: &[usize; 6], value: &[f64]) -> [f64; 6]
    requires { Among (length value.now) six.now }
    ensures { SixRead value.now six.now result }
{
    let mut leaves = [0.0; 6];
    for (j, leaf) in leaves.iter_mut().enumerate() {
        *leaf = value[six[j]];
    }
    leaves
}

// What rows i to i + 5 come to in a tree of n nodes that is lent alone.
fn six_leaves(i: usize, features: usize, n: usize, values: &[f64], table: &Table) -> [f64; 6]
    requires { SixWalkable features 0 n i values.now (columns_in table.now) }
    ensures { result ≡ map (leaf_at features values.now (entries_at (columns_in table.now) 0 n)) (from i 6) }
{
    let mut six = [0; 6];
    while children(&six, table.truechild) != 0 {
        steps(&mut six, i, features, values, table);
    }
    values_of(&six, table.value)
}

// And in the tree of n nodes from place a on.
pub fn six_values(
    i: usize,
    features: usize,
    a: usize,
    n: usize,
    values: &[f64],
    table: &Table,
) -> [f64; 6]
    requires { SixWalkable features a n i values.now (columns_in table.now) }
    ensures { result ≡ map (leaf_at features values.now (entries_at (columns_in table.now) a n)) (from i 6) }
{
    let e = a + n;
    let tree = Table {
        value: &table.value[a..e],
        feature: &table.feature[a..e],
        threshold: &table.threshold[a..e],
        score: &table.score[a..e],
        truechild: &table.truechild[a..e],
        falsechild: &table.falsechild[a..e],
    };
    six_leaves(i, features, n, values, &tree)
}
