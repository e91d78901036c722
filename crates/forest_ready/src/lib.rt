// The checks of a forest's fit, and what its trees grow by once they have passed.
#![tactic(auto)]

ghost use Rattle.std.specs.Prelude.{◌≡◌};
ghost use Rattle.rules.specs.Lent.{ForestRooms, WaitingRoom};
ghost use Rattle.rules.specs.Slices.{given_in};
ghost use Rattle.rules.specs.Forest.{ForestCall};
ghost use Rattle.checks.specs.Verdicts.{ForestHas};
ghost use Rattle.forest_ready.specs.Ready.{Ready};

use checks::{Lengths, ReportLengths};
use rules::{Input, Params, Refusal, Settings, Shape, TapeStarts, Tried};

// How much of the order the trees are lent, and what they grow by.
#[derive(Clone, Copy)]
pub struct Growing {
    pub size: usize,
    pub params: Params,
}

// A refusal, or what is to be grown.
pub fn ready(
    input: &Input,
    words: usize,
    thresholds: usize,
    parts: &TapeStarts,
    shape: Shape,
    trees: usize,
    settings: Settings,
    tried: Tried,
    room: Lengths,
    starts: usize,
    reports: ReportLengths,
) -> Result<Growing, Refusal>
    ensures { (C : ForestCall) (R : ForestRooms WaitingRoom)
        → ForestHas shape trees (given_in input.now) words thresholds parts.now room starts reports C R
        → settings ≡ C.settings → tried ≡ C.tried → Ready C R result }
{
    checks::forest::forest_verdict(
        shape, trees, input, words, thresholds, parts, room, starts, reports,
    )?;
    let m = criterion::tried_of(shape.features as u32, tried);
    Ok(Growing {
        size: shape.features * shape.rows,
        params: params::params_of(settings, m, shape.features),
    })
}
