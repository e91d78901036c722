// The trees of a forest, one after another: each with its own counts and its own part of both tapes, its nodes behind those of the one before.
#![tactic(auto)]

ghost use Rattle.std.specs.Prelude.{◌≡◌};
ghost use Rattle.rules.specs.Slices.{SameNodes, SameWork};
ghost use Rattle.node_entries.specs.Entries.{room_in, node_room_of, node_lengths};
ghost use Rattle.tree_growth.specs.Places.{work_lengths};
ghost use Rattle.tree_build.specs.Plant.{tree_for, data_for, PlantDone};
ghost use Rattle.forest_build.specs.Lot.{lot_in, PlantIn};
ghost use Rattle.forest_build.specs.Next.{NextAsks, NextDone};
ghost use Rattle.forest_build.specs.Told.{told_of};
ghost use Rattle.forest_build.specs.All.{AllAsks, AllDone};

use forest_parts::Parts;
use rules::{Input, NodeRoom, Params, Place, Report, Shape, TapeStarts, Tapes, WorkRoom};
use tree_report::Planted;

// A tree that stands in the node columns: its report, and the place where its nodes end.
#[derive(Clone, Copy)]
pub struct GrownTree {
    pub report: Report,
    pub end: u32,
}

// No tree yet.
pub const BLANK: GrownTree = GrownTree {
    report: Report {
        nodes: 0,
        depth: 0,
        mass: 0.0,
        searches: 0,
        words: 0,
        thresholds: 0,
    },
    end: 0,
};

// The trees are grown, and stand in the places that were lent for them; or where a bad draw was met. They are lent, as many as there may be trees (there is no heap): as an answer
// they would be copied from caller to caller, each time to another part of the stack.
pub type Told = Result<(), Place>;

// A tree in node columns that come one by one: of a room that is lent the ends of its columns can be lent, but not as a room.
fn plant_in<'a>(
    value: &'a mut [f64],
    feature: &'a mut [u32],
    threshold: &'a mut [f64],
    score: &'a mut [f64],
    truechild: &'a mut [u32],
    falsechild: &'a mut [u32],
    count: &'a mut [u32],
    mass: &'a mut [f64],
    work: &mut WorkRoom,
    input: &Input,
    tapes: &Tapes,
    shape: Shape,
    p: Params,
) -> Planted
    requires { PlantIn shape.features (tree_for shape p input.now tapes.now) (data_for input.now)
        (node_room_of value.old feature.old threshold.old score.old truechild.old falsechild.old count.old mass.old)
        (work_lengths work.old) }
    ensures same_work { SameWork work.old work.new }
    ensures work_long { work_lengths work.new ≡ work_lengths work.old }
    ensures done { PlantDone (tree_for shape p input.now tapes.now) (data_for input.now)
        (node_room_of value.old feature.old threshold.old score.old truechild.old falsechild.old count.old mass.old)
        (node_room_of value.new feature.new threshold.new score.new truechild.new falsechild.new count.new mass.new)
        result }
{
    let mut nodes = NodeRoom {
        value,
        feature,
        threshold,
        score,
        truechild,
        falsechild,
        count,
        mass,
    };
    tree_build::plant(&mut nodes, work, input, tapes, shape, p)
}

// Tree t, or where its bad draw was met; its nodes from place `at` of the node columns on.
pub fn plant_next(
    nodes: &mut NodeRoom,
    work: &mut WorkRoom,
    input: &Input,
    tapes: &Tapes,
    parts: &TapeStarts,
    shape: Shape,
    p: Params,
    t: usize,
    at: usize,
) -> Result<Report, Place>
    requires { NextAsks (lot_in input.now tapes.now parts.now shape p) t at (room_in nodes.old) (work_lengths work.old) }
    ensures same_nodes { SameNodes nodes.old nodes.new }
    ensures same_work { SameWork work.old work.new }
    ensures nodes_long { node_lengths (room_in nodes.new) ≡ node_lengths (room_in nodes.old) }
    ensures work_long { work_lengths work.new ≡ work_lengths work.old }
    ensures done { NextDone (lot_in input.now tapes.now parts.now shape p) t at (room_in nodes.old) (room_in nodes.new) result }
{
    let Parts {
        counts,
        words,
        thresholds,
    } = forest_parts::parts_of(parts, shape.rows, t);
    let own = Input {
        counts: &input.counts[counts.start..counts.end],
        ..*input
    };
    let drawn = Tapes {
        words: &tapes.words[words.start..words.end],
        thresholds: &tapes.thresholds[thresholds.start..thresholds.end],
    };
    plant_in(
        &mut nodes.value[at..],
        &mut nodes.feature[at..],
        &mut nodes.threshold[at..],
        &mut nodes.score[at..],
        &mut nodes.truechild[at..],
        &mut nodes.falsechild[at..],
        &mut nodes.count[at..],
        &mut nodes.mass[at..],
        work,
        &own,
        &drawn,
        shape,
        p,
    )
    .map_err(|search| Place {
        tree: t as u32,
        search,
    })
}

// Tree after tree, from the first to the last or to a bad draw.
pub fn plant_all(
    grown: &mut [GrownTree; 1024],
    nodes: &mut NodeRoom,
    work: &mut WorkRoom,
    input: &Input,
    tapes: &Tapes,
    parts: &TapeStarts,
    shape: Shape,
    p: Params,
    trees: usize,
) -> Told
    requires { AllAsks trees (lot_in input.now tapes.now parts.now shape p) (room_in nodes.old) (work_lengths work.old) }
    ensures same_nodes { SameNodes nodes.old nodes.new }
    ensures same_work { SameWork work.old work.new }
    ensures nodes_long { node_lengths (room_in nodes.new) ≡ node_lengths (room_in nodes.old) }
    ensures work_long { work_lengths work.new ≡ work_lengths work.old }
    ensures done { AllDone trees (lot_in input.now tapes.now parts.now shape p) (room_in nodes.old) (room_in nodes.new) (told_of result grown.new) }
{
    let mut at: usize = 0;
    for t in 0..trees {
        let report = plant_next(nodes, work, input, tapes, parts, shape, p, t, at)?;
        at = forest_parts::end_of(at, report.nodes);
        grown[t] = GrownTree {
            report,
            end: at as u32,
        };
    }
    Ok(())
}
