// The verdict of one tree's fit: what the first check that fails tells.
ghost use Rattle.std.specs.Prelude.{◌≡◌};
ghost use Rattle.rules.specs.Lent.{TreeRooms, WaitingRoom, waiting_room};
ghost use Rattle.rules.specs.Slices.{given_in};
ghost use Rattle.rules.specs.Checks.{checked};
ghost use Rattle.rules.specs.Fit.{TreeCall, tree_tests};
ghost use Rattle.checks.specs.Verdicts.{TreeHas};

use crate::Lengths;
use rules::{Checked, Input, Shape};

pub fn tree_verdict(shape: Shape, input: &Input, room: Lengths) -> Checked
    ensures { (C : TreeCall) (R : TreeRooms WaitingRoom)
        → TreeHas shape (given_in input.now) room C R → result ≡ checked (tree_tests waiting_room C R) }
{
    crate::need(1, crate::shape_in(shape))?;
    crate::need(2, crate::inputs::lengths_good(shape, 1, input))?;
    crate::need(3, crate::inputs::numbers_good(input))?;
    crate::need(4, crate::inputs::counts_low(input.counts))?;
    listings::first_fault(shape, input.values, input.listings)?;
    crate::need(6, crate::rooms::tree_rooms(shape, input, room))
}
