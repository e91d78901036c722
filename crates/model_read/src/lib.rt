// A model file read into rooms: gone through once to check it, and once more to write what it says.
#![tactic(auto)]

ghost use Rattle.std.specs.Prelude.{◌≡◌, List, ℕ};
ghost use Rattle.rules.specs.Words.{joined, front};
ghost use Rattle.rules.specs.Lent.{Entry, outcome_of, shortest, write_entries};
ghost use Rattle.rules.specs.Model.{says, nodes_at, trees_at, starts_of, table_rooms_of, read_model};
ghost use Rattle.rules.specs.Slices.{table_in, SameTable};
ghost use Rattle.model_read.specs.Nodes.{put_all, NodesAsk};
ghost use Rattle.model_read.specs.Trees.{TreesAsk};

use rules::{Misread, ModelReply, TableRoom};

// The n nodes of a tree, from place base of the columns on. Answers where they end in the file.
fn put_nodes(
    room: &mut TableRoom,
    bytes: &[u8],
    features: usize,
    n: usize,
    base: usize,
    start: usize,
) -> usize
    requires { NodesAsk (table_in room.old) bytes.now features n base start }
    ensures same_slices { SameTable room.old room.new }
    ensures nodes { (es : List Entry) → (end : ℕ) → nodes_at bytes.now features n 0 n start ≡ says es end
        → (table_in room.new ≡ put_all base es (table_in room.old)) × (result ≡ end) }
{
    let mut at = start;
    for k in 0..n {
        // the file is good, and so is each node
        let (entry, next) = fields::node_in(bytes, features, n, k, at).unwrap();
        node_entries::put_entry(room, base + k, entry);
        at = next;
    }
    at
}

// All trees, one after another, and where each starts.
fn put_trees(
    room: &mut TableRoom,
    starts: &mut [u32],
    bytes: &[u8],
    features: usize,
    trees: usize,
    start: usize,
)
    requires { TreesAsk (table_in room.old) starts.old bytes.now features trees start }
    ensures same_slices { SameTable room.old room.new }
    ensures trees { (ts : List (List Entry)) → (end : ℕ) → trees_at bytes.now features 0 trees start ≡ says ts end
        → (table_in room.new ≡ write_entries (joined (λ t. t) ts) (table_in room.old))
        × (starts.new ≡ front (starts_of 0 ts) starts.old) }
{
    starts[0] = 0;
    let mut at = start;
    let mut sofar: usize = 0;
    for t in 0..trees {
        let n = bits::number_at(bytes, at, 4) as usize;
        at = put_nodes(room, bytes, features, n, sofar, at + 4);
        sofar += n;
        starts[t + 1] = sofar as u32;
    }
}

// How many nodes there is room for: `len` of a table, over a room, which cannot be lent as a table while it is to be written.
fn places(room: &TableRoom) -> usize
    ensures { result ≡ shortest (table_in room.now) }
{
    let children = room.truechild.len().min(room.falsechild.len());
    let cuts = room.threshold.len().min(room.score.len().min(children));
    room.value.len().min(room.feature.len().min(cuts))
}

// A model file's table, if the file is good and there is room for it.
pub fn read_model(room: &mut TableRoom, starts: &mut [u32], file: &[u8]) -> ModelReply
    ensures same_slices { SameTable room.old room.new }
    ensures model { outcome_of result (table_rooms_of (table_in room.new) starts.new)
        ≡ read_model file.now (table_rooms_of (table_in room.old) starts.old) }
{
    let sizes = model_check::model_seen(file)?;
    let nodes = sizes.nodes as usize;
    let trees = sizes.trees as usize;
    if places(room) < nodes || starts.len() <= trees {
        return Err(Misread {
            number: 6,
            place: 0,
        });
    }
    put_trees(room, starts, file, sizes.features as usize, trees, 9);
    Ok(sizes)
}
