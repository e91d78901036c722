// The fit of one tree: checks, set-up, growth, and the rooms as they are left.
#![tactic(auto)]

ghost use Rattle.std.specs.Prelude.{◌≡◌, ◌*◌, ◌≤◌, length};
ghost use Rattle.rules.specs.Lent.{waiting_room, tree_rooms_of, outcome_of};
ghost use Rattle.rules.specs.Slices.{given_in, nodes_in, behind_in, work_in, SameNodes, SameWork};
ghost use Rattle.rules.specs.Fit.{fit_tree, tree_call};
ghost use Rattle.lemmas.specs.Passed.{Binary64};
ghost use Rattle.node_entries.specs.Entries.{room_in, node_lengths};
ghost use Rattle.tree_build.specs.Plant.{tree_for, data_for, PlantAsks, PlantDone};
ghost use Rattle.tree_fit.specs.Ends.{finished};

use checks::Lengths;
use rules::{FitError, Input, NodeRoom, Params, Settings, Shape, Tapes, TreeAnswer, WorkRoom};
use tree_report::Planted;

// Work room is left zero; a bad draw leaves node room zero as well.
fn finish(nodes: &mut NodeRoom, work: &mut WorkRoom, r: Planted) -> TreeAnswer
    ensures same_nodes { SameNodes nodes.old nodes.new }
    ensures same_work { SameWork work.old work.new }
    ensures finished { outcome_of result (tree_rooms_of (nodes_in nodes.new) (behind_in nodes.new) (work_in work.new))
        ≡ finished r (tree_rooms_of (nodes_in nodes.old) (behind_in nodes.old) (work_in work.old)) }
{
    rooms::zero_work(work);
    match r {
        Ok(report) => Ok(report),
        Err(search) => {
            rooms::zero_nodes(nodes);
            tree_report::bad_draw(search)
        }
    }
}

// The tree is planted in the front of the order room. The parts of the work room come one by one, so that one of them can be cut.
fn plant_in_front(
    nodes: &mut NodeRoom,
    order: &mut [u32],
    scratch: &mut [u32],
    flags: &mut [bool],
    wholes: &mut [[u32; 6]],
    reals: &mut [[f64; 3]],
    input: &Input,
    tapes: &Tapes,
    shape: Shape,
    p: Params,
) -> Planted
    requires size_small { shape.features * shape.rows ≤ 1024 * 65535 }
    requires order_long { shape.features * shape.rows ≤ length order.old }
    requires plant_asks { Binary64 input.now.values.now → PlantAsks shape.features (tree_for shape p input.now tapes.now) (data_for input.now) (room_in nodes.old)
        (shape.features * shape.rows) (length scratch.old) (length flags.old) (length wholes.old) (length reals.old) }
    ensures same_nodes { SameNodes nodes.old nodes.new }
    ensures nodes_long { node_lengths (room_in nodes.new) ≡ node_lengths (room_in nodes.old) }
    ensures planted { PlantDone (tree_for shape p input.now tapes.now) (data_for input.now) (room_in nodes.old) (room_in nodes.new) result }
{
    let size = shape.features * shape.rows;
    let mut work = WorkRoom {
        order: &mut order[..size],
        scratch,
        flags,
        wholes,
        reals,
    };
    tree_build::plant(nodes, &mut work, input, tapes, shape, p)
}

pub fn fit_tree(
    nodes: &mut NodeRoom,
    work: &mut WorkRoom,
    input: &Input,
    tapes: &Tapes,
    shape: Shape,
    settings: Settings,
    tried: u32,
) -> TreeAnswer
    ensures same_nodes { SameNodes nodes.old nodes.new }
    ensures same_work { SameWork work.old work.new }
    ensures fitted { outcome_of result (tree_rooms_of (nodes_in nodes.new) (behind_in nodes.new) (work_in work.new))
        ≡ fit_tree waiting_room (tree_call shape settings tried (given_in input.now) tapes.now.words.now tapes.now.thresholds.now)
        (tree_rooms_of (nodes_in nodes.old) (behind_in nodes.old) (work_in work.old)) }
{
    let room = Lengths {
        nodes: nodes.len(),
        order: work.order.len(),
        scratch: work.scratch.len(),
        flags: work.flags.len(),
        waiting: work.wholes.len().min(work.reals.len()),
    };
    checks::tree::tree_verdict(shape, input, room).map_err(FitError::Refused)?;
    let p = params::params_of(settings, tried, shape.features);
    let planted = plant_in_front(
        nodes,
        work.order,
        work.scratch,
        work.flags,
        work.wholes,
        work.reals,
        input,
        tapes,
        shape,
        p,
    );
    finish(nodes, work, planted)
}
