// The means of a forest, over all its trees or over those for which a row is out of bag. The result room holds the running sums, and the trees are
// walked one after another, so that a tree's nodes stay near.
ghost use Rattle.std.specs.Prelude.{◌≡◌, map, ◌+◌, ◌^◌, ◌<◌, ◌≤◌, length, get_or};
ghost use Rattle.std.specs.Float.{nan, binary64};
ghost use Rattle.std.specs.Float.Ieee.{add, div};
ghost use Rattle.rules.specs.Words.{float, from};
ghost use Rattle.rules.specs.Slices.{columns_in, forest_in};
ghost use Rattle.rules.specs.Table.{trees_of};
ghost use Rattle.rules.specs.OutOfBag.{out_of_bag_mean};
ghost use Rattle.walks.specs.Walks.{Walkable};
ghost use Rattle.means.specs.Rows.{rewritten, Further, Laid};
ghost use Rattle.bags.specs.Bags.{is_out, out_number};
ghost use Rattle.means.specs.Sums.{TreeReadable, with_tree_of, summed, Countable, ForestReadable};

use rules::{Shape, Table, Trees};

// What means are taken of: the rows by their values, and the counts of all trees, or none.
#[derive(Clone, Copy)]
pub struct Sample<'a> {
    pub shape: Shape,
    pub values: &'a [f64],
    pub counts: &'a [u32],
}

// The n nodes from place a of the table on; the tree's counts start at base.
#[derive(Clone, Copy)]
pub struct Tree<'a> {
    pub table: Table<'a>,
    pub a: usize,
    pub n: usize,
    pub base: usize,
}

// ---- the sums

// Row i's sum once a tree is taken in.
fn sum_with(x: f64, i: usize, sample: &Sample, tree: &Tree) -> f64
    requires low { tree.now.base + i < 2 ^ 64 }
    requires walkable { Walkable sample.now.shape.features tree.now.a tree.now.n i sample.now.values.now (columns_in tree.now.table) }
    ensures { result ≡ with_tree_of sample.now tree.now i x }
{
    if bags::is_out(sample.counts, tree.base + i) {
        let features = sample.shape.features;
        x + walks::row_value(i, features, tree.a, tree.n, sample.values, &tree.table)
    } else {
        x
    }
}

// Six values, added to those from place i on; by places, as no invariant could speak of what a zip writes.
fn add_six(out: &mut [f64], i: usize, six: [f64; 6])
    requires { i + 6 ≤ length out.old }
    ensures { Laid (λ k x. add binary64 x (get_or six k nan)) i 6 out.old out.new }
{
    for k in 0..6 {
        out[i + k] += six[k];
    }
}

// The rows from the first that is left on, one at a time.
fn add_rest(out: &mut [f64], first: usize, sample: &Sample, tree: &Tree)
    requires left { first ≤ sample.now.shape.rows }
    requires low { Countable tree.now.base }
    requires readable { TreeReadable sample.now tree.now out.old }
    ensures { Further (with_tree_of sample.now tree.now) first sample.now.shape.rows out.old out.new }
{
    for i in first..sample.shape.rows {
        out[i] = sum_with(out[i], i, sample, tree);
    }
}

// How many rows may be walked side by side: all, or none if there are counts, since a tree then takes in only some of them.
fn alike(sample: &Sample) -> usize
    ensures few { result ≤ sample.now.shape.rows }
    ensures all { 0 < result → length sample.now.counts.now ≡ 0 }
{
    if sample.counts.len() == 0 {
        sample.shape.rows
    } else {
        0
    }
}

// Six rows at a time as long as there are six.
fn add_tree(out: &mut [f64], sample: &Sample, tree: &Tree)
    requires low { Countable tree.now.base }
    requires readable { TreeReadable sample.now tree.now out.old }
    ensures { out.new ≡ rewritten (with_tree_of sample.now tree.now) 0 sample.now.shape.rows out.old }
{
    let features = sample.shape.features;
    let sixes = alike(sample) / 6;
    for s in 0..sixes {
        let i = 6 * s;
        let six = walks::six_values(i, features, tree.a, tree.n, sample.values, &tree.table);
        add_six(out, i, six);
    }
    add_rest(out, 6 * sixes, sample, tree);
}

// Each tree lies between two starts. A function that gives both would be no plainer than the two lines that read them.
fn add_trees(out: &mut [f64], sample: &Sample, forest: &Trees)
    requires { ForestReadable sample.now.shape.rows sample.now.shape.features sample.now.values.now (forest_in forest.now) out.old }
    ensures { out.new ≡ rewritten (summed sample.now.shape.rows sample.now.shape.features sample.now.values.now sample.now.counts.now 0
        (trees_of (forest_in forest.now))) 0 sample.now.shape.rows out.old }
{
    for t in 0..forest.number {
        let a = forest.starts[t] as usize;
        let e = forest.starts[t + 1] as usize;
        let tree = Tree {
            table: forest.table,
            a,
            n: e - a,
            base: t * sample.shape.rows,
        };
        add_tree(out, sample, &tree);
    }
}

fn divide(out: &mut [f64], rows: usize, trees: usize, counts: &[u32])
    requires few { rows ≤ 65535 }
    requires few_trees { trees ≤ 1024 }
    requires room { length out.old ≡ rows }
    ensures { out.new ≡ rewritten (λ k x. div binary64 x (float (out_number rows trees counts.now k))) 0 rows out.old }
{
    for (i, x) in out.iter_mut().enumerate() {
        *x /= slices::float_of(bags::out_number(rows, trees, counts, i));
    }
}

// ---- the means

// Over the trees that counts leave a row out of; without counts over all.
pub fn means(out: &mut [f64], sample: &Sample, forest: &Trees)
    requires { ForestReadable sample.now.shape.rows sample.now.shape.features sample.now.values.now (forest_in forest.now) out.old }
    ensures { out.new ≡ map (out_of_bag_mean sample.now.shape sample.now.values.now sample.now.counts.now (forest_in forest.now))
        (from 0 sample.now.shape.rows) }
{
    slices::fill(out, 0.0);
    add_trees(out, sample, forest);
    divide(out, sample.shape.rows, forest.number, sample.counts);
}
