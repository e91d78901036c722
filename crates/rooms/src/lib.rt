// Rooms that are lent, filled with zero; and what a slice of floats says by its type.
#![tactic(auto)]

ghost use Rattle.std.specs.Prelude.{◌≡◌};
ghost use Rattle.rules.specs.Lent.{waiting_room, zero_columns, zero_behind, zero_reports, zero_work};
ghost use Rattle.lemmas.specs.Passed.{Binary64};
ghost use Rattle.rules.specs.Slices.{nodes_in, behind_in, reports_in, work_in, SameNodes, SameReports, SameWork};

use rules::{NodeRoom, ReportRoom, WorkRoom};

// The six columns of a table, and the two beside them.
pub fn zero_nodes(room: &mut NodeRoom)
    ensures table { nodes_in room.new ≡ zero_columns (nodes_in room.old) }
    ensures behind { behind_in room.new ≡ zero_behind (behind_in room.old) }
    ensures same { SameNodes room.old room.new }
{
    slices::fill(room.value, 0.0);
    slices::fill(room.feature, 0);
    slices::fill(room.threshold, 0.0);
    slices::fill(room.score, 0.0);
    slices::fill(room.truechild, 0);
    slices::fill(room.falsechild, 0);
    slices::fill(room.count, 0);
    slices::fill(room.mass, 0.0);
}

pub fn zero_work(room: &mut WorkRoom)
    ensures zero { work_in room.new ≡ zero_work waiting_room (work_in room.old) }
    ensures same { SameWork room.old room.new }
{
    slices::fill(room.order, 0);
    slices::fill(room.scratch, 0);
    slices::fill(room.flags, false);
    slices::fill(room.wholes, [0; 6]);
    slices::fill(room.reals, [0.0; 3]);
}

pub fn zero_reports(room: &mut ReportRoom)
    ensures zero { reports_in room.new ≡ zero_reports (reports_in room.old) }
    ensures same { SameReports room.old room.new }
{
    slices::fill(room.nodes, 0);
    slices::fill(room.depth, 0);
    slices::fill(room.mass, 0.0);
    slices::fill(room.searches, 0);
    slices::fill(room.words, 0);
    slices::fill(room.thresholds, 0);
}

// Each value is a number of 64 bits. Of a slice that lies in a struct a proof has this only where the slice is passed.
pub fn values_fit(values: &[f64])
    ensures { Binary64 values.now }
{}
