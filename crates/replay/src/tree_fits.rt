// Kind 1: a fit of one tree.
ghost use Rattle.std.specs.Prelude.{◌≡◌, length};

use crate::calls::{Call, Lists};
use crate::compared::Verdict;
use crate::nines::{Nodes, Work};
use crate::{calls, compared};
use rules::{Settings, TreeTold};

fn told_of(t: TreeTold) -> [usize; 10]
    ensures { 10 ≡ length result }
{
    [
        t.number as usize,
        t.part as usize,
        t.place as usize,
        t.row as usize,
        t.nodes as usize,
        t.depth as usize,
        compared::pattern(t.mass),
        t.searches as usize,
        t.words as usize,
        t.thresholds as usize,
    ]
}

fn fit(
    call: &Call,
    lists: Lists,
    lengths: &[usize],
    answer: &[usize],
    settings: Settings,
    tried: u32,
) -> Verdict {
    let mut nodes = Nodes::nines();
    let mut work = Work::nines();
    let answered = tree_fit::fit_tree(
        &mut nodes.lent(lengths),
        &mut work.lent(lengths, 8),
        &call.input(lists),
        &call.tapes(lists),
        call.shape(),
        settings,
        tried,
    );
    let told = told_of(TreeTold::from(answered));
    let check = compared::first(answer, lengths, 10);
    work.compared(nodes.compared(check)).judged(&told)
}

pub fn replay(call: &Call, answer: &[usize]) -> Verdict {
    let told = call.rest(2);
    if !calls::settings_good(told) {
        return Verdict::Malformed;
    }
    let Ok(tried) = u32::try_from(call.number(5)) else {
        return Verdict::Malformed;
    };
    let lists = call.lists(8);
    let lengths = call.rest(lists.end);
    if lengths.len() != 12 {
        return Verdict::Malformed;
    }
    fit(
        call,
        lists,
        lengths,
        answer,
        calls::settings_of(told),
        tried,
    )
}
