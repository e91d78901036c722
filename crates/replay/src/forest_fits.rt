// Kind 2: a fit of a forest.
use crate::calls::{Call, Lists};
use crate::compared::Verdict;
use crate::nines::{Nodes, Reports, Work};
use crate::{calls, compared};
use rules::{Refusal, Settings, TapeStarts, Tried};

fn fit(
    call: &Call,
    lists: Lists,
    parts: &TapeStarts,
    lengths: &[usize],
    answer: &[usize],
    settings: Settings,
    tried: Tried,
) -> Verdict {
    let mut nodes = Nodes::nines();
    let mut starts = [9u32; 64];
    let mut reports = Reports::nines();
    let mut work = Work::nines();
    let answered = forest_fit::fit_forest(
        &mut nodes.lent(lengths),
        compared::lent(lengths, 8, &mut starts),
        &mut reports.lent(lengths),
        &mut work.lent(lengths, 15),
        &call.input(lists),
        &call.tapes(lists),
        parts,
        call.shape(),
        call.number(2),
        settings,
        tried,
    );
    let told = compared::told_of(Refusal::from(answered));
    let check = nodes
        .compared(compared::first(answer, lengths, 4))
        .room(&starts);
    work.compared(reports.compared(check)).judged(&told)
}

pub fn replay(call: &Call, answer: &[usize]) -> Verdict {
    let told = call.rest(3);
    if !calls::settings_good(told) {
        return Verdict::Malformed;
    }
    // One more than the highest word where nothing is said.
    let number: usize = calls::entry(told, 3);
    if calls::MOST + 1 < number {
        return Verdict::Malformed;
    }
    let tried = u32::try_from(number).ok();
    let lists = call.lists(9);
    let thresholds = call.after(lists.end);
    let end = call.after(thresholds);
    let lengths = call.rest(end);
    if lengths.len() != 19 {
        return Verdict::Malformed;
    }
    let parts = TapeStarts {
        words: call.numbers(lists.end, thresholds),
        thresholds: call.numbers(thresholds, end),
    };
    fit(
        call,
        lists,
        &parts,
        lengths,
        answer,
        calls::settings_of(told),
        tried,
    )
}
