// The rooms that a fit asks: node room by kept rows, work room by shape, report columns by trees.
ghost use Rattle.std.specs.Prelude.{◌≡◌, true, ◌&&◌, suc, leb};
ghost use Rattle.rules.specs.Lent.{Work, Reports, WaitingRoom, waiting_room};
ghost use Rattle.rules.specs.Checks.{shape_in, work_enough, reports_exact};
ghost use Rattle.checks.specs.Lent.{Counted, Grown, WorkHas, ReportsHave};
ghost use Rattle.checks.specs.Rooms.{Kept, TreeRoom, room_in, ForestRoom, rooms_in};

use crate::{Lengths, ReportLengths};
use rules::{Input, Shape};

// How many rows a tree keeps.
pub fn kept_number(weights: &[f64], counts: &[u32], rows: usize) -> usize
    requires { Counted rows weights.now counts.now }
    ensures { Kept weights.now counts.now rows result }
{
    (0..rows)
        .filter(|i| criterion::is_kept(weights, counts, *i))
        .count()
}

// The node room that a tree needs.
pub fn tree_room(weights: &[f64], counts: &[u32], rows: usize) -> usize
    requires { Counted rows weights.now counts.now }
    ensures { TreeRoom weights.now counts.now rows result }
{
    let kept = kept_number(weights, counts, rows);
    (2 * kept).saturating_sub(1).max(1)
}

// The node room that the trees of a forest need together.
pub fn forest_room(weights: &[f64], counts: &[u32], rows: usize, trees: usize) -> usize
    requires { Grown rows trees weights.now counts.now }
    ensures { ForestRoom weights.now counts.now rows trees result }
{
    (0..trees)
        .map(|t| tree_room(weights, &counts[t * rows..t * rows + rows], rows))
        .sum()
}

#[tactic(auto, unfolding(rules::specs::Checks::work_enough))]
pub fn work_enough(shape: Shape, room: Lengths) -> bool
    requires { shape_in shape ≡ true }
    ensures { (w : Work WaitingRoom) → WorkHas room w → result ≡ work_enough waiting_room shape w }
{
    shape.features * shape.rows <= room.order
        && shape.rows <= room.scratch
        && shape.rows.max(shape.features) <= room.flags
        && shape.rows <= room.waiting
}

#[tactic(auto, unfolding(rules::specs::Checks::reports_exact))]
pub fn reports_exact(trees: usize, reports: ReportLengths) -> bool
    ensures { (s : Reports) → ReportsHave reports s → result ≡ reports_exact trees s }
{
    reports.nodes == trees
        && reports.depth == trees
        && reports.mass == trees
        && reports.searches == trees
        && reports.words == trees
        && reports.thresholds == trees
}

// All rooms of the fit of one tree.
pub fn tree_rooms(shape: Shape, input: &Input, room: Lengths) -> bool
    requires { (shape_in shape ≡ true) × Counted shape.rows input.now.weights.now input.now.counts.now }
    ensures { (w : Work WaitingRoom) → WorkHas room w
        → result ≡ (leb (room_in shape.rows input.now.weights.now input.now.counts.now) room.nodes && work_enough waiting_room shape w) }
{
    tree_room(input.weights, input.counts, shape.rows) <= room.nodes && work_enough(shape, room)
}

// All rooms of the fit of a forest.
pub fn forest_rooms(
    shape: Shape,
    trees: usize,
    input: &Input,
    room: Lengths,
    starts: usize,
    reports: ReportLengths,
) -> bool
    requires { (shape_in shape ≡ true) × Grown shape.rows trees input.now.weights.now input.now.counts.now }
    ensures { (w : Work WaitingRoom) (s : Reports) → WorkHas room w → ReportsHave reports s → result ≡
        (leb (rooms_in shape.rows trees input.now.weights.now input.now.counts.now) room.nodes
        && (work_enough waiting_room shape w && (leb (suc trees) starts && reports_exact trees s))) }
{
    forest_room(input.weights, input.counts, shape.rows, trees) <= room.nodes
        && work_enough(shape, room)
        && trees < starts
        && reports_exact(trees, reports)
}
