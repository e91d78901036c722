// What a tree grows by, from the settings of a call.
#![tactic(auto)]

ghost use Rattle.std.specs.Prelude.{◌≡◌, ◌<◌, ◌≤◌};
ghost use Rattle.rules.specs.Fit.{limit_of};
ghost use Rattle.params.specs.Params.{ParamsMade};

use rules::{Params, Settings};

// No greatest depth acts as 65,535.
fn limit_of(depth: Option<u16>) -> u32
    ensures value { result ≡ limit_of depth }
    ensures deep { result ≤ 65535 }
{
    u32::from(depth.unwrap_or(65535))
}

pub fn params_of(settings: Settings, tried: u32, features: usize) -> Params
    requires { features < 4294967296 }
    ensures { ParamsMade settings tried features result }
{
    Params {
        limit: limit_of(settings.depth),
        leaf: settings.leaf,
        split: settings.split,
        tried,
        features: features as u32,
        splitter: settings.splitter,
        height: settings.height,
    }
}
