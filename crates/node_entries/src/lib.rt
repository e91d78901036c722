// What stands at one place of the rooms of a growth: a waiting node in two slices of arrays, and a node in eight columns: its entry in six, its count and its mass in two.
#![tactic(auto)]

ghost use Rattle.std.specs.Prelude.{◌≡◌, ◌+◌, ◌<◌, length, set};
ghost use Rattle.rules.specs.Lent.{columns_of};
ghost use Rattle.rules.specs.Slices.{table_in, SameTable, SameNodes};
ghost use Rattle.node_entries.specs.Entries.{wholes_of, reals_of, waiting_at, LongAll, put_entry, room_in, LongRoom, put_node, put_leaf, split_for, wrote_split};

use criterion::Side;
use rules::{NodeRoom, TableRoom, Totals};

// A node that waits: its number, where its rows lie, its level, its totals, and the cut that its search found, with how many rows are on the true side.
#[derive(Clone, Copy)]
pub struct WaitingNode {
    pub node: u32,
    pub start: u32,
    pub end: u32,
    pub level: u32,
    pub rows: u32,
    pub feature: u32,
    pub sum: f64,
    pub mass: f64,
    pub cut: f64,
}

// A node as it stands in the six columns.
#[derive(Clone, Copy)]
pub struct NodeEntry {
    pub value: f64,
    pub feature: u32,
    pub threshold: f64,
    pub score: f64,
    pub truechild: u32,
    pub falsechild: u32,
}

pub fn push(wholes: &mut [[u32; 6]], reals: &mut [[f64; 3]], n: usize, w: WaitingNode)
    requires wholes_long { n < length wholes.old }
    requires reals_long { n < length reals.old }
    ensures wholes_after { wholes.new ≡ set wholes.old n (wholes_of w) }
    ensures reals_after { reals.new ≡ set reals.old n (reals_of w) }
{
    wholes[n] = [w.node, w.start, w.end, w.level, w.rows, w.feature];
    reals[n] = [w.sum, w.mass, w.cut];
}

pub fn top(wholes: &[[u32; 6]], reals: &[[f64; 3]], i: usize) -> WaitingNode
    requires wholes_long { i < length wholes.now }
    requires reals_long { i < length reals.now }
    ensures { result ≡ waiting_at wholes.now reals.now i }
{
    let [node, start, end, level, rows, feature] = wholes[i];
    let [sum, mass, cut] = reals[i];
    WaitingNode {
        node,
        start,
        end,
        level,
        rows,
        feature,
        sum,
        mass,
        cut,
    }
}

// The entry at place i of six columns, which both rooms lend: a node room holds no table room (rules).
#[tactic(auto, unfolding(crate::specs::Entries::put_entry))]
fn put_six(
    value: &mut [f64],
    feature: &mut [u32],
    threshold: &mut [f64],
    score: &mut [f64],
    truechild: &mut [u32],
    falsechild: &mut [u32],
    i: usize,
    r: NodeEntry,
)
    requires { LongAll (i + 1) (columns_of value.old feature.old threshold.old score.old truechild.old falsechild.old) }
    ensures { columns_of value.new feature.new threshold.new score.new truechild.new falsechild.new
        ≡ put_entry i r (columns_of value.old feature.old threshold.old score.old truechild.old falsechild.old) }
{
    value[i] = r.value;
    feature[i] = r.feature;
    threshold[i] = r.threshold;
    score[i] = r.score;
    truechild[i] = r.truechild;
    falsechild[i] = r.falsechild;
}

pub fn put_entry(room: &mut TableRoom, i: usize, r: NodeEntry)
    requires { LongAll (i + 1) (table_in room.old) }
    ensures same_slices { SameTable room.old room.new }
    ensures entry { table_in room.new ≡ put_entry i r (table_in room.old) }
{
    put_six(
        room.value,
        room.feature,
        room.threshold,
        room.score,
        room.truechild,
        room.falsechild,
        i,
        r,
    );
}

// A node's entry, its count and its mass, at place i.
#[tactic(auto, unfolding(crate::specs::Entries::put_node))]
pub fn put_node(room: &mut NodeRoom, i: usize, r: NodeEntry, k: u32, m: f64)
    requires { LongRoom (i + 1) (room_in room.old) }
    ensures same_slices { SameNodes room.old room.new }
    ensures node { room_in room.new ≡ put_node i r k m (room_in room.old) }
{
    put_six(
        room.value,
        room.feature,
        room.threshold,
        room.score,
        room.truechild,
        room.falsechild,
        i,
        r,
    );
    room.count[i] = k;
    room.mass[i] = m;
}

pub fn put_leaf(room: &mut NodeRoom, i: usize, a: Side)
    requires { LongRoom (i + 1) (room_in room.old) }
    ensures same_slices { SameNodes room.old room.new }
    ensures leaf { room_in room.new ≡ put_leaf i a (room_in room.old) }
{
    let entry = NodeEntry {
        value: criterion::value_of(a.totals),
        feature: 0,
        threshold: 0.0,
        score: 0.0,
        truechild: 0,
        falsechild: 0,
    };
    put_node(room, i, entry, a.count, a.totals.mass);
}

// The split of a waiting node, in the node's own place: its mass is the one that its value is divided by, and not that of the score.
pub fn put_split(room: &mut NodeRoom, w: WaitingNode, k: u32, q: f64, n: u32)
    requires room_long { LongRoom (w.node + 1) (room_in room.old) }
    requires number_small { n + 1 < 4294967296 }
    ensures same_slices { SameNodes room.old room.new }
    ensures split { room_in room.new ≡ put_node w.node (split_for w q n) k w.mass (room_in room.old) }
{
    let t = Totals {
        sum: w.sum,
        mass: w.mass,
    };
    let entry = NodeEntry {
        value: criterion::value_of(t),
        feature: w.feature,
        threshold: w.cut,
        score: q,
        truechild: n,
        falsechild: n + 1,
    };
    put_node(room, w.node as usize, entry, k, w.mass);
}

// A split node and its two children, n and n + 1, in the node columns. The node's count is its children's together; its mass is its own.
#[tactic(auto, unfolding(crate::specs::Entries::wrote_split))]
pub fn write_split(room: &mut NodeRoom, w: WaitingNode, a: Side, b: Side, q: f64, n: u32)
    requires room_long { LongRoom (n + 2) (room_in room.old) }
    requires parent_before { w.node < n }
    requires number_small { n + 2 < 4294967296 }
    requires counts_small { a.count + b.count < 4294967296 }
    ensures same_slices { SameNodes room.old room.new }
    ensures nodes { room_in room.new ≡ wrote_split w a b q n (room_in room.old) }
{
    let all = a.count + b.count;
    let place = n as usize;
    put_split(room, w, all, q, n);
    put_leaf(room, place, a);
    put_leaf(room, place + 1, b);
}
