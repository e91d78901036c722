// Replays the list of answers (standard input) through the proved calls and compares by bits. What the numbers of a line mean is
// in oracle/README.md, "The list".
#![tactic(auto)]

mod calls;
mod compared;
mod forest_fits;
mod kinds;
mod lines;
mod nines;
mod nodes;
mod readers;
mod tally;
mod tree_fits;

use crate::calls::Call;
use crate::compared::Verdict;
use crate::kinds::Kind;
use crate::tally::Tally;
use console::Console;
use std::fmt::Write;

// No line has more numbers.
const LONGEST: usize = 512;

// ---- a case: kind, judge, the call's length, the call, the answer's length, the answer

fn replay(kind: Kind, call: &Call, answer: &[usize]) -> Verdict {
    match kind {
        Kind::TreeFit => tree_fits::replay(call, answer),
        Kind::ForestFit => forest_fits::replay(call, answer),
        Kind::OutOfBagError => readers::replay_error(call, answer),
        Kind::Listings => readers::replay_listings(call, answer),
        Kind::NodeRead => nodes::replay(call, answer),
        _ => readers::replay(kind, call, answer),
    }
}

fn view(kind: Kind, numbers: &[usize], answer: &[usize]) -> Verdict {
    let mut reals = [0.0; LONGEST];
    let mut words = [0u32; LONGEST];
    calls::as_reals(numbers, &mut reals);
    calls::as_words(numbers, &mut words);
    let call = Call {
        numbers,
        reals: &reals,
        words: &words,
    };
    replay(kind, &call, answer)
}

fn case(kind: Kind, numbers: &[usize]) -> Verdict {
    let n = numbers.len();
    if n < 4 {
        return Verdict::Malformed;
    }
    let size = numbers[2];
    if n - 4 < size {
        return Verdict::Malformed;
    }
    let end = 3 + size;
    let from = end + 1;
    if numbers[end] != n - from {
        return Verdict::Malformed;
    }
    view(kind, &numbers[3..end], &numbers[from..])
}

fn read_case(text: &[u8], tally: &mut Tally) -> Verdict {
    let mut numbers = [0usize; LONGEST];
    let n = lines::numbers(text, &mut numbers).unwrap_or(0);
    let kind = Kind::try_from(calls::entry(&numbers[..n], 0)).ok();
    let v = match kind {
        Some(kind) => case(kind, &numbers[..n]),
        None => Verdict::Malformed,
    };
    tally.count(kind, v);
    v
}

// ---- what is told, in as many pieces as ever: one that cannot be written is passed over

// The cases from the list's second line on. A verdict that is no agreement is told.
fn read_cases(out: &mut Console, text: &[u8], tally: &mut Tally) {
    let mut line: usize = 2;
    let mut at = lines::find(text, 0, b'\n') + 1;
    while at < text.len() {
        let end = lines::find(text, at, b'\n');
        let v = read_case(&text[at..end], tally);
        if !matches!(v, Verdict::Agrees) {
            let _ = write!(out, "line {line}{v}");
        }
        line = line.saturating_add(1);
        at = end + 1;
    }
}

// How many cases the list's first line says there are.
fn tell_said(out: &mut Console, text: &[u8]) {
    let end = lines::find(text, 0, b' ');
    let _ = write!(out, "cases: ");
    io::write_all(1, &text[0..end]);
    let _ = writeln!(out);
}

fn replay_all(out: &mut Console, text: &[u8]) {
    let mut tally = Tally::none();
    tell_said(out, text);
    read_cases(out, text, &mut tally);
    tally.tell(out);
}

// So long an array is passed on by its type: the list of its elements is too long to be computed.
fn with_page(text: &mut [u8; 1048576]) {
    let n = io::read_full(0, text);
    replay_all(&mut Console, &text[..n]);
}

fn main() {
    let mut text = [0u8; 1048576];
    with_page(&mut text);
}
