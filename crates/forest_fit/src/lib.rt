// The fit of a forest: checks, its trees one after another, and what is told of them.
#![tactic(auto)]

ghost use Rattle.std.specs.Prelude.{◌≡◌};
ghost use Rattle.rules.specs.Lent.{waiting_room, forest_rooms_of, outcome_of};
ghost use Rattle.rules.specs.Slices.{given_in, nodes_in, behind_in, reports_in, work_in, SameNodes, SameReports, SameWork};
ghost use Rattle.rules.specs.Forest.{fit_forest, forest_call};
ghost use Rattle.forest_fit.specs.Ends.{room_lengths, report_lengths};

use checks::{Lengths, ReportLengths};
use rules::{
    FitError, ForestAnswer, Input, NodeRoom, ReportRoom, Settings, Shape, TapeStarts, Tapes, Tried,
    WorkRoom,
};

// How long node and work rooms are.
fn room_lengths(nodes: &NodeRoom, work: &WorkRoom) -> Lengths
    ensures { result ≡ room_lengths nodes.now work.now }
{
    Lengths {
        nodes: nodes.len(),
        order: work.order.len(),
        scratch: work.scratch.len(),
        flags: work.flags.len(),
        waiting: work.wholes.len().min(work.reals.len()),
    }
}

// And the report columns.
fn report_lengths(room: &ReportRoom) -> ReportLengths
    ensures { result ≡ report_lengths room.now }
{
    ReportLengths {
        nodes: room.nodes.len(),
        depth: room.depth.len(),
        mass: room.mass.len(),
        searches: room.searches.len(),
        words: room.words.len(),
        thresholds: room.thresholds.len(),
    }
}

pub fn fit_forest(
    nodes: &mut NodeRoom,
    starts: &mut [u32],
    reports: &mut ReportRoom,
    work: &mut WorkRoom,
    input: &Input,
    tapes: &Tapes,
    parts: &TapeStarts,
    shape: Shape,
    trees: usize,
    settings: Settings,
    tried: Tried,
) -> ForestAnswer
    ensures same_nodes { SameNodes nodes.old nodes.new }
    ensures same_reports { SameReports reports.old reports.new }
    ensures same_work { SameWork work.old work.new }
    ensures fitted { outcome_of result (forest_rooms_of (nodes_in nodes.new) (behind_in nodes.new) starts.new (reports_in reports.new) (work_in work.new))
        ≡ fit_forest waiting_room
        (forest_call shape trees settings tried (given_in input.now) tapes.now.words.now tapes.now.thresholds.now parts.now.words.now parts.now.thresholds.now)
        (forest_rooms_of (nodes_in nodes.old) (behind_in nodes.old) starts.old (reports_in reports.old) (work_in work.old)) }
{
    let room = room_lengths(nodes, work);
    let columns = report_lengths(reports);
    let ready = forest_ready::ready(
        input,
        tapes.words.len(),
        tapes.thresholds.len(),
        parts,
        shape,
        trees,
        settings,
        tried,
        room,
        starts.len(),
        columns,
    );
    let growing = ready.map_err(FitError::Refused)?;
    rooms::values_fit(input.values);
    let mut grown = [forest_build::BLANK; 1024];
    let told = forest_grow::grow(
        &mut grown,
        nodes,
        work,
        input,
        tapes,
        parts,
        shape,
        growing.params,
        trees,
        growing.size,
    );
    forest_reports::tell(starts, reports, &grown, trees, &told)
}
