// A tree grown from its root: the last node to wait is split, and its children are searched, until none waits.
#![tactic(auto)]

ghost use Rattle.std.specs.Prelude.{◌≡◌, ◌≤◌, length};
ghost use Rattle.rules.specs.Slices.{SameNodes, SameWork};
ghost use Rattle.node_entries.specs.Entries.{room_in, LongRoom, node_lengths};
ghost use Rattle.node_growth.specs.Rooms.{ground_in};
ghost use Rattle.tree_growth.specs.Places.{work_lengths};
ghost use Rattle.tree_growth.specs.Halves.{GrowAsks, GrowDone};
ghost use Rattle.tree_growth.specs.Tree.{TreeAsks, TreeDone};

use criterion::Side;
use node_growth::{BadSearch, Pair, Stand};
use rules::{Input, NodeRoom, Params, Shape, Tapes, WorkRoom};
use search::Drawn;

// A tree that grows: how many nodes it has, its depth so far, and how many nodes wait, with how far the tapes are used.
#[derive(Clone, Copy)]
pub struct At {
    pub nodes: u32,
    pub depth: u32,
    pub stand: Stand,
}

// The growth: what is left to search is searched, and the last to join is split, until nothing waits. `most` is how many nodes there may be.
// The parts of the work room come one by one: with the room as one struct the loop did not prove, since it reads `order` while `wholes` and `reals` are written.
pub fn grow(
    nodes: &mut NodeRoom,
    order: &mut [u32],
    scratch: &mut [u32],
    flags: &mut [bool],
    wholes: &mut [[u32; 6]],
    reals: &mut [[f64; 3]],
    input: &Input,
    tapes: &Tapes,
    shape: Shape,
    most: usize,
    p: Params,
    root: Pair,
    start: At,
) -> Result<At, BadSearch>
    requires { GrowAsks (ground_in shape input.now order.old) p tapes.now.words.now tapes.now.thresholds.now most (length scratch.old)
        (length flags.old) (room_in nodes.old) wholes.old reals.old root start }
    ensures same_slices { SameNodes nodes.old nodes.new }
    ensures nodes_long { node_lengths (room_in nodes.new) ≡ node_lengths (room_in nodes.old) }
    ensures grown { GrowDone (ground_in shape input.now order.old) p tapes.now.words.now tapes.now.thresholds.now most (room_in nodes.old) (room_in nodes.new)
        wholes.old reals.old root start result }
{
    let mut at = start;
    let mut q = root;
    'turns: loop {
        let s = node_growth::search_pair(
            wholes, reals, input, order, tapes, shape, p, q, at.stand,
        )?;
        if s.waiting == 0 {
            return Ok(At { stand: s, ..at });
        }
        let m = s.waiting - 1;
        let w = node_entries::top(wholes, reals, m);
        let h = node_growth::split_node(flags, nodes, input, order, shape, w, at.nodes);
        q = node_growth::part_sides(order, scratch, flags, shape, p, w, at.nodes, h);
        at = At {
            nodes: at.nodes + 2,
            depth: at.depth.max(q.level),
            stand: Stand {
                waiting: m,
                drawn: s.drawn,
            },
        };
    }
}

// The growth of a tree whose kept rows lie in the work columns from 0 to `kept`.
pub fn grow_tree(
    nodes: &mut NodeRoom,
    work: &mut WorkRoom,
    input: &Input,
    tapes: &Tapes,
    shape: Shape,
    most: usize,
    p: Params,
    kept: u32,
    root: Side,
) -> Result<At, BadSearch>
    requires tree_asks { TreeAsks (ground_in shape input.now work.old.order.now) p most kept root (length work.old.wholes.now) (length work.old.reals.now) }
    requires scratch_long { shape.rows ≤ length work.old.scratch.now }
    requires flags_long { shape.rows ≤ length work.old.flags.now }
    requires nodes_enough { LongRoom most (room_in nodes.old) }
    ensures same_nodes { SameNodes nodes.old nodes.new }
    ensures same_work { SameWork work.old work.new }
    ensures nodes_long { node_lengths (room_in nodes.new) ≡ node_lengths (room_in nodes.old) }
    ensures work_long { work_lengths work.new ≡ work_lengths work.old }
    ensures grown { TreeDone (ground_in shape input.now work.old.order.now) p tapes.now.words.now tapes.now.thresholds.now (room_in nodes.old) (room_in nodes.new) kept root result }
{
    node_entries::put_leaf(nodes, 0, root);
    let q = node_growth::root_pair(kept, root);
    let unused = Drawn {
        words: 0,
        thresholds: 0,
        searches: 0,
    };
    let at = At {
        nodes: 1,
        depth: 0,
        stand: Stand {
            waiting: 0,
            drawn: unused,
        },
    };
    grow(
        nodes,
        work.order,
        work.scratch,
        work.flags,
        work.wholes,
        work.reals,
        input,
        tapes,
        shape,
        most,
        p,
        q,
        at,
    )
}
