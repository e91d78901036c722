// A forest's table as a file: how many bytes it takes, and the file written.
#![tactic(auto)]

ghost use Rattle.std.specs.Prelude.{◌≡◌, ◌+◌, ◌-◌, ◌<◌, ◌≤◌, length};
ghost use Rattle.rules.specs.Words.{front, joined};
ghost use Rattle.rules.specs.Lent.{outcome_of, shortest, entries_at};
ghost use Rattle.rules.specs.Slices.{columns_in, forest_in};
ghost use Rattle.rules.specs.Table.{trees_of};
ghost use Rattle.rules.specs.Model.{tree_bytes, file_of, model_size, write_model};
ghost use Rattle.lemmas.specs.FileRead.{header_bytes};
ghost use Rattle.lemmas.specs.FileLength.{node_size};
ghost use Rattle.lemmas.specs.Spliced.{spliced};
ghost use Rattle.model_write.specs.Sizes.{tree_long, file_long, Reached, Counted};
ghost use Rattle.model_write.specs.Puts.{cut_at, bytes_at, nodes_on, Put, NodesFit, TreeFits, FileFits};

use rules::{SizeReply, Table, Trees};

// ---- how many bytes

// A leaf, or a split with its feature, threshold and score.
fn node_size(truechild: u32) -> usize
    ensures { result ≡ node_size truechild }
{
    if truechild != 0 { 30 } else { 12 }
}

// The nodes from place a up to place e, and how many they are.
fn tree_size(a: usize, e: usize, truechild: &[u32]) -> usize
    requires { Reached e truechild.now }
    ensures { result ≡ tree_long truechild.now a e }
{
    let mut sum: usize = 4;
    for k in a..e {
        sum += node_size(truechild[k]);
    }
    sum
}

// What a file says first, and its trees.
fn file_size(forest: &Trees) -> usize
    requires { Counted forest.now.number forest.now.starts.now forest.now.table.truechild.now }
    ensures { result ≡ file_long forest.now.number forest.now.starts.now forest.now.table.truechild.now }
{
    let mut sum: usize = 9;
    for t in 0..forest.number {
        let a = forest.starts[t] as usize;
        let e = forest.starts[t + 1] as usize;
        sum += tree_size(a, e, forest.table.truechild);
    }
    sum
}

// How many bytes a forest's table takes as a file: refusals 1, 6 and 8.
pub fn model_size(features: usize, forest: &Trees) -> SizeReply
    ensures { result ≡ model_size features (forest_in forest.now) }
{
    tables::check_forest(features, forest)?;
    Ok(file_size(forest))
}

// ---- written

// The mark, the version, and how many features and trees.
fn put_header(file: &mut [u8], features: usize, trees: usize)
    requires { 9 ≤ length file.old }
    ensures { file.new ≡ spliced 0 (header_bytes features trees) file.old }
{
    bits::put_number(file, 0, 3, 0x464752);
    bits::put_number(file, 3, 2, 1);
    bits::put_number(file, 5, 2, features as u64);
    bits::put_number(file, 7, 2, trees as u64);
}

// What a split says more than a leaf.
fn put_cut(file: &mut [u8], at: usize, table: &Table, k: usize)
    requires inside { k < shortest (columns_in table.now) }
    requires room { at + 18 ≤ length file.old }
    ensures { file.new ≡ spliced at (cut_at (columns_in table.now) k) file.old }
{
    bits::put_number(file, at, 2, table.feature[k] as u64);
    bits::put_float(file, at + 2, table.threshold[k]);
    bits::put_float(file, at + 10, table.score[k]);
}

// Node k, and where the next one comes. Its false child is the one after the true child, and is not written.
fn put_node(file: &mut [u8], at: usize, table: &Table, k: usize) -> usize
    requires inside { k < shortest (columns_in table.now) }
    requires room { at + length (bytes_at (columns_in table.now) k) ≤ length file.old }
    ensures { Put at (bytes_at (columns_in table.now) k) file.old result file.new }
{
    let truechild = table.truechild[k];
    bits::put_float(file, at, table.value[k]);
    bits::put_number(file, at + 8, 4, truechild as u64);
    if truechild == 0 {
        return at + 12;
    }
    put_cut(file, at + 12, table, k);
    at + 30
}

// The nodes from place a up to place e, one after another.
fn put_nodes(file: &mut [u8], at: usize, a: usize, e: usize, table: &Table) -> usize
    requires { NodesFit at a e (columns_in table.now) file.old }
    ensures { Put at (nodes_on (columns_in table.now) e a) file.old result file.new }
{
    let mut spot = at;
    for k in a..e {
        spot = put_node(file, spot, table, k);
    }
    spot
}

// A tree: how many nodes it has, and its nodes.
fn put_tree(file: &mut [u8], at: usize, a: usize, e: usize, table: &Table) -> usize
    requires { TreeFits at a e (columns_in table.now) file.old }
    ensures { Put at (tree_bytes (entries_at (columns_in table.now) a (e - a))) file.old result file.new }
{
    bits::put_number(file, at, 4, (e - a) as u64);
    put_nodes(file, at + 4, a, e, table)
}

// All trees, after what the file says first.
fn put_trees(file: &mut [u8], forest: &Trees)
    requires { FileFits (forest_in forest.now) file.old }
    ensures { file.new ≡ spliced 9 (joined tree_bytes (trees_of (forest_in forest.now))) file.old }
{
    let mut spot: usize = 9;
    for t in 0..forest.number {
        let a = forest.starts[t] as usize;
        let e = forest.starts[t + 1] as usize;
        spot = put_tree(file, spot, a, e, &forest.table);
    }
}

// The file, at the front of a room that is long enough.
fn put_file(file: &mut [u8], features: usize, forest: &Trees)
    requires { FileFits (forest_in forest.now) file.old }
    ensures { file.new ≡ front (file_of features (trees_of (forest_in forest.now))) file.old }
{
    put_header(file, features, forest.number);
    put_trees(file, forest);
}

// A forest's table as a file: refusals 1, 6 for the start table, 8, and 6 for the room.
pub fn write_model(features: usize, forest: &Trees, file: &mut [u8]) -> SizeReply
    ensures { outcome_of result file.new ≡ write_model features (forest_in forest.now) file.old }
{
    tables::check_forest(features, forest)?;
    let size = file_size(forest);
    if file.len() < size {
        return Err(6);
    }
    put_file(file, features, forest);
    Ok(size)
}
