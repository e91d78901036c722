// What a forest tells of its trees: the start table and the report columns.
#![tactic(auto)]

ghost use Rattle.std.specs.Prelude.{◌≡◌, ◌+◌, set, map, ◌∷◌};
ghost use Rattle.rules.specs.Words.{front};
ghost use Rattle.rules.specs.Lent.{write_reports};
ghost use Rattle.rules.specs.Slices.{reports_in, SameReports};
ghost use Rattle.forest_build.specs.Told.{report_of, end_of, told_of};
ghost use Rattle.forest_reports.specs.Reports.{put_report, NextAsks, AllAsk, TellAsks, left_of, leaves};

use forest_build::{GrownTree, Told};
use rules::{FitError, ForestAnswer, ReportRoom};

// Where tree t ends, and its report.
fn note_next(starts: &mut [u32], room: &mut ReportRoom, t: usize, tree: GrownTree)
    requires { NextAsks t starts.old (reports_in room.old) }
    ensures same { SameReports room.old room.new }
    ensures starts_after { starts.new ≡ set starts.old (t + 1) tree.end }
    ensures reports_after { reports_in room.new ≡ put_report t tree.report (reports_in room.old) }
{
    let r = tree.report;
    starts[t + 1] = tree.end;
    room.nodes[t] = r.nodes;
    room.depth[t] = r.depth;
    room.mass[t] = r.mass;
    room.searches[t] = r.searches;
    room.words[t] = r.words;
    room.thresholds[t] = r.thresholds;
}

// Where each tree starts and the last one ends, and the reports of all.
fn note_all(starts: &mut [u32], room: &mut ReportRoom, trees: &[GrownTree])
    requires { AllAsk trees.now starts.old (reports_in room.old) }
    ensures same { SameReports room.old room.new }
    ensures starts_after { starts.new ≡ front (0 ∷ map end_of trees.now) starts.old }
    ensures reports_after { reports_in room.new ≡ write_reports (map report_of trees.now) (reports_in room.old) }
{
    starts[0] = 0;
    for (t, tree) in trees.iter().enumerate() {
        note_next(starts, room, t, *tree);
    }
}

// The start table and the reports of grown trees; a bad draw leaves them zero.
pub fn tell(
    starts: &mut [u32],
    room: &mut ReportRoom,
    grown: &[GrownTree; 1024],
    trees: usize,
    told: &Told,
) -> ForestAnswer
    requires { TellAsks trees starts.old (reports_in room.old) }
    ensures same { SameReports room.old room.new }
    ensures left { left_of result starts.new (reports_in room.new)
        ≡ leaves trees (told_of told.now grown.now) starts.old (reports_in room.old) }
{
    match told {
        Err(place) => {
            slices::fill(starts, 0);
            rooms::zero_reports(room);
            Err(FitError::BadDraw(*place))
        }
        Ok(()) => {
            note_all(starts, room, &grown[..trees]);
            Ok(())
        }
    }
}
