// The trees of a forest in the node room; the work room is left zero, and the node room too at a bad draw.
#![tactic(auto)]

ghost use Rattle.std.specs.Prelude.{◌≡◌};
ghost use Rattle.rules.specs.Slices.{work_in, SameNodes, SameWork};
ghost use Rattle.node_entries.specs.Entries.{room_in, node_lengths};
ghost use Rattle.forest_build.specs.Told.{told_of};
ghost use Rattle.forest_build.specs.Lot.{lot_in};
ghost use Rattle.forest_build.specs.All.{AllAsks, AllDone};
ghost use Rattle.forest_grow.specs.Grown.{lengths_of, nodes_left, GrowAsks, GrowDone};

use forest_build::{GrownTree, Told};
use rules::{Input, NodeRoom, Params, Shape, TapeStarts, Tapes, WorkRoom};

// The trees, in work slices that come one by one: of a room that is lent the front of the order can be lent, but not as a room.
fn plant_in<'a>(
    grown: &mut [GrownTree; 1024],
    order: &'a mut [u32],
    scratch: &'a mut [u32],
    flags: &'a mut [bool],
    wholes: &'a mut [[u32; 6]],
    reals: &'a mut [[f64; 3]],
    nodes: &mut NodeRoom,
    input: &Input,
    tapes: &Tapes,
    parts: &TapeStarts,
    shape: Shape,
    p: Params,
    trees: usize,
) -> Told
    requires { AllAsks trees (lot_in input.now tapes.now parts.now shape p) (room_in nodes.old)
        (lengths_of order.old scratch.old flags.old wholes.old reals.old) }
    ensures same_nodes { SameNodes nodes.old nodes.new }
    ensures nodes_long { node_lengths (room_in nodes.new) ≡ node_lengths (room_in nodes.old) }
    ensures done { AllDone trees (lot_in input.now tapes.now parts.now shape p) (room_in nodes.old) (room_in nodes.new) (told_of result grown.new) }
{
    let mut work = WorkRoom {
        order,
        scratch,
        flags,
        wholes,
        reals,
    };
    forest_build::plant_all(
        grown, nodes, &mut work, input, tapes, parts, shape, p, trees,
    )
}

// Grown trees stay as they are; a bad draw leaves the nodes zero.
fn leave_nodes(nodes: &mut NodeRoom, told: &Told)
    ensures same_nodes { SameNodes nodes.old nodes.new }
    ensures left { room_in nodes.new ≡ nodes_left told.now (room_in nodes.old) }
{
    if told.is_err() {
        rooms::zero_nodes(nodes);
    }
}

// Of the order, `size` places are lent to the trees.
pub fn grow(
    grown: &mut [GrownTree; 1024],
    nodes: &mut NodeRoom,
    work: &mut WorkRoom,
    input: &Input,
    tapes: &Tapes,
    parts: &TapeStarts,
    shape: Shape,
    p: Params,
    trees: usize,
    size: usize,
) -> Told
    requires { GrowAsks trees (lot_in input.now tapes.now parts.now shape p) (room_in nodes.old) (work_in work.old) size }
    ensures same_nodes { SameNodes nodes.old nodes.new }
    ensures same_work { SameWork work.old work.new }
    ensures done { GrowDone trees (lot_in input.now tapes.now parts.now shape p) (room_in nodes.old) (room_in nodes.new)
        (work_in work.old) (work_in work.new) (told_of result grown.new) }
{
    let told = plant_in(
        grown,
        &mut work.order[..size],
        work.scratch,
        work.flags,
        work.wholes,
        work.reals,
        nodes,
        input,
        tapes,
        parts,
        shape,
        p,
        trees,
    );
    rooms::zero_work(work);
    leave_nodes(nodes, &told);
    told
}
