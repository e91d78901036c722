// Kind 13: a node read out.
ghost use Rattle.std.specs.Prelude.{◌≡◌, length};

use crate::calls::Call;
use crate::compared;
use crate::compared::Verdict;
use rules::{NodeTold, Table};

fn told_of(t: NodeTold) -> [usize; 8]
    ensures { 8 ≡ length result }
{
    [
        t.number as usize,
        usize::from(t.there),
        compared::pattern(t.value),
        t.feature as usize,
        compared::pattern(t.threshold),
        compared::pattern(t.score),
        t.truechild as usize,
        t.falsechild as usize,
    ]
}

// The columns come one by one, since what bounds the false child's number is known where its slice is a parameter.
fn read(
    features: usize,
    value: &[f64],
    feature: &[u32],
    threshold: &[f64],
    score: &[f64],
    truechild: &[u32],
    falsechild: &[u32],
    k: usize,
) -> NodeTold {
    let table = Table {
        value,
        feature,
        threshold,
        score,
        truechild,
        falsechild,
    };
    let r = tables::read_node(features, &table, k);
    c_types::node_told_of(r)
}

pub fn replay(call: &Call, answer: &[usize]) -> Verdict {
    let c = call.columns(1);
    let asked = call.rest(c.end);
    if asked.len() != 1 {
        return Verdict::Malformed;
    }
    let table = call.table(c);
    let told = told_of(read(
        call.number(0),
        table.value,
        table.feature,
        table.threshold,
        table.score,
        table.truechild,
        table.falsechild,
        asked[0],
    ));
    compared::first(answer, &[], 8).judged(&told)
}
