// The verdict of a forest's fit: what the first check that fails tells.
ghost use Rattle.std.specs.Prelude.{◌≡◌, ◌&&◌, ◌≤◌, length};
ghost use Rattle.rules.specs.Lent.{ForestRooms, WaitingRoom, waiting_room};
ghost use Rattle.rules.specs.Slices.{given_in};
ghost use Rattle.rules.specs.Checks.{checked, trees_in, shape_in, lengths, good_tape_starts, counts_good, counts_one};
ghost use Rattle.rules.specs.Forest.{ForestCall, forest_tests};
ghost use Rattle.checks.specs.Asks.{Ranges};
ghost use Rattle.checks.specs.Verdicts.{ForestHas, parted};

use crate::{Lengths, ReportLengths};
use rules::{Checked, Input, Shape, TapeStarts};

pub fn forest_in(shape: Shape, trees: usize) -> bool
    ensures { result ≡ (shape_in shape && trees_in trees) }
{
    crate::shape_in(shape) && crate::trees_in(trees)
}

fn both_tapes(trees: usize, words: usize, thresholds: usize, parts: &TapeStarts) -> bool
    requires { trees ≤ 1024 }
    ensures { result ≡ parted trees words thresholds parts.now }
{
    crate::inputs::tape_starts_good(trees, words, parts.words)
        && crate::inputs::tape_starts_good(trees, thresholds, parts.thresholds)
}

fn forest_long(
    shape: Shape,
    trees: usize,
    input: &Input,
    words: usize,
    thresholds: usize,
    parts: &TapeStarts,
) -> bool
    requires { Ranges shape trees }
    ensures { result ≡ (lengths shape trees (given_in input.now) && parted trees words thresholds parts.now) }
{
    crate::inputs::lengths_good(shape, trees, input) && both_tapes(trees, words, thresholds, parts)
}

#[tactic(auto, unfolding(rules::specs::Checks::counts_good, rules::specs::Checks::counts_one))]
fn forest_counts(input: &Input) -> bool
    ensures { result ≡ (counts_good (given_in input.now) && counts_one (given_in input.now)) }
{
    crate::inputs::counts_low(input.counts)
        && crate::inputs::counts_one(input.weights, input.counts)
}

pub fn forest_verdict(
    shape: Shape,
    trees: usize,
    input: &Input,
    words: usize,
    thresholds: usize,
    parts: &TapeStarts,
    room: Lengths,
    starts: usize,
    reports: ReportLengths,
) -> Checked
    ensures { (C : ForestCall) (R : ForestRooms WaitingRoom)
        → ForestHas shape trees (given_in input.now) words thresholds parts.now room starts reports C R
        → result ≡ checked (forest_tests waiting_room C R) }
{
    crate::need(1, forest_in(shape, trees))?;
    crate::need(
        2,
        forest_long(shape, trees, input, words, thresholds, parts),
    )?;
    crate::need(3, crate::inputs::numbers_good(input))?;
    crate::need(4, forest_counts(input))?;
    listings::first_fault(shape, input.values, input.listings)?;
    crate::need(
        6,
        crate::rooms::forest_rooms(shape, trees, input, room, starts, reports),
    )
}
