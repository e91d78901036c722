// One tree, once the checks have passed: its root is set up in the work columns and grown there.
#![tactic(auto)]

ghost use Rattle.std.specs.Prelude.{◌≡◌, ◌-◌, ◌*◌, ◌≤◌, max, length};
ghost use Rattle.rules.specs.Slices.{SameNodes, SameWork};
ghost use Rattle.lemmas.specs.Passed.{Binary64};
ghost use Rattle.node_entries.specs.Entries.{room_in, node_lengths};
ghost use Rattle.tree_growth.specs.Places.{work_lengths};
ghost use Rattle.tree_build.specs.Plant.{tree_for, data_for, SetUpAsks, SetUp, PlantAsks, PlantDone};

use criterion::Side;
use rules::{Input, NodeRoom, Params, Shape, Tapes, WorkRoom};
use tree_report::Planted;

// A root: how many rows it keeps, how many nodes may come of it, its totals and count.
#[derive(Clone, Copy)]
pub struct Root {
    pub kept: u32,
    pub most: usize,
    pub asked: Side,
}

// The nodes that a tree of so many kept rows may have.
fn most_nodes(kept: usize) -> usize
    requires { kept ≤ 65535 }
    ensures { result ≡ max 1 (2 * kept - 1) }
{
    (2 * kept).saturating_sub(1).max(1)
}

// The kept rows are laid out in the work columns, which are as long as the listings.
fn set_up(order: &mut [u32], input: &Input, shape: Shape) -> Root
    requires { SetUpAsks shape.rows shape.features input.now.targets.now input.now.weights.now input.now.counts.now input.now.listings.now (length order.old) }
    ensures { SetUp shape.rows shape.features input.now.targets.now input.now.weights.now input.now.counts.now input.now.listings.now order.new result }
{
    let kept = work_columns::kept_columns(order, input, shape);
    let totals = work_columns::root_totals(input, shape.rows);
    let count = work_columns::kept_count(input, shape.rows);
    Root {
        kept: kept as u32,
        most: most_nodes(kept),
        asked: Side { totals, count },
    }
}

// The order room is as long as the work columns, no longer.
pub fn plant(
    nodes: &mut NodeRoom,
    work: &mut WorkRoom,
    input: &Input,
    tapes: &Tapes,
    shape: Shape,
    p: Params,
) -> Planted
    requires { Binary64 input.now.values.now → PlantAsks shape.features (tree_for shape p input.now tapes.now) (data_for input.now) (room_in nodes.old)
        (length work.old.order.now) (length work.old.scratch.now) (length work.old.flags.now) (length work.old.wholes.now) (length work.old.reals.now) }
    ensures same_nodes { SameNodes nodes.old nodes.new }
    ensures same_work { SameWork work.old work.new }
    ensures nodes_long { node_lengths (room_in nodes.new) ≡ node_lengths (room_in nodes.old) }
    ensures work_long { work_lengths work.new ≡ work_lengths work.old }
    ensures planted { PlantDone (tree_for shape p input.now tapes.now) (data_for input.now) (room_in nodes.old) (room_in nodes.new) result }
{
    rooms::values_fit(input.values);
    let root = set_up(work.order, input, shape);
    let asked = root.asked;
    let grown = tree_growth::grow_tree(
        nodes, work, input, tapes, shape, root.most, p, root.kept, asked,
    );
    tree_report::tell(
        grown,
        asked.totals.mass,
        tapes.words.len(),
        tapes.thresholds.len(),
    )
}
