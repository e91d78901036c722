// What a call tells and leaves, held against the answer.
ghost use Rattle.std.specs.Prelude.{◌≡◌, length};
ghost use Rattle.std.specs.Float.Ieee as Ieee;
ghost use Rattle.std.specs.Float.{binary64};

use crate::calls;
use rules::Refusal;
use std::fmt;

// Numbers and rooms are counted from 1, in the order of the answer.
#[derive(Clone, Copy)]
pub enum Verdict {
    Agrees,
    Number(usize),
    Room(usize),
    Malformed,
}

// What the line of a case ends with.
impl fmt::Display for Verdict {
    fn fmt<W: fmt::Write>(&self, f: &mut fmt::Formatter<W>) -> fmt::Result {
        match self {
            Verdict::Agrees => f.write_str(" agrees\n"),
            Verdict::Number(n) => write!(f, ": number {n} differs\n"),
            Verdict::Room(n) => write!(f, ": room {n} differs\n"),
            Verdict::Malformed => f.write_str(" is malformed\n"),
        }
    }
}

// The 64 bits of a float; each NaN has the same.
pub fn pattern(x: f64) -> usize
    ensures { result ≡ Ieee.to_bits binary64 x }
{
    bits::pattern_of(x) as usize
}

// ---- what is told

// The first number that is not as the answer begins.
fn wrong_number(answer: &[usize], told: &[usize]) -> Option<usize> {
    let i = (0..told.len()).position(|i| answer.get(i) != told.get(i))?;
    Some(i + 1)
}

// ---- lent rooms

// The first entries of a longer room, as many as the lengths say. A room that is to have more entries than there are is lent none, and is never found the same.
pub fn lent<'a, T, const N: usize>(
    lengths: &[usize],
    i: usize,
    room: &'a mut [T; N],
) -> &'a mut [T] {
    let n: usize = calls::entry(lengths, i);
    let all = &mut room[..];
    if n <= N {
        return &mut all[0..n];
    }
    &mut all[0..0]
}

// An entry of a room, as the list writes it, and what it was before.
pub trait Entry: Copy {
    const BEFORE: usize;

    fn number(self) -> usize;
}

impl Entry for f64 {
    // That of nine.
    const BEFORE: usize = 0x4022000000000000;

    fn number(self) -> usize {
        pattern(self)
    }
}

impl Entry for u32 {
    const BEFORE: usize = 9;

    fn number(self) -> usize {
        self as usize
    }
}

impl Entry for bool {
    const BEFORE: usize = 1;

    fn number(self) -> usize {
        usize::from(self)
    }
}

// What the first n entries of a room are to be: some that are written out, and the others all alike.
#[derive(Clone, Copy)]
pub struct Expected<'a> {
    entries: &'a [usize],
    rest: usize,
    n: usize,
}

impl Expected<'_> {
    fn at(&self, i: usize) -> usize {
        self.entries.get(i).copied().unwrap_or(self.rest)
    }

    fn is<T: Entry>(&self, room: &[T]) -> bool {
        let as_long = self.n <= room.len();
        as_long && (0..self.n).all(|i| room[i].number() == self.at(i))
    }

    // A node that waits counts as a whole.
    fn is_waiting(&self, wholes: &[[u32; 6]], triples: &[[f64; 3]]) -> bool {
        let as_long = self.n <= wholes.len() && self.n <= triples.len();
        as_long && (0..self.n).all(|i| mark(&wholes[i], &triples[i]) == self.at(i))
    }
}

// Whether all entries are alike.
fn all_are<T: Entry>(room: &[T], n: usize) -> bool {
    room.iter().all(|x| x.number() == n)
}

// A node that waits: 9 as it was, 0 zero, else 1.
fn mark(whole: &[u32], triple: &[f64]) -> usize {
    if all_are(whole, u32::BEFORE) && all_are(triple, f64::BEFORE) {
        9
    } else if all_are(whole, 0) && all_are(triple, 0) {
        0
    } else {
        1
    }
}

// ---- rooms compared one after another

// The answer and the rooms' lengths; where the next room is written, how many were compared, and the first that differs.
#[derive(Clone, Copy)]
pub struct Check<'a> {
    answer: &'a [usize],
    lengths: &'a [usize],
    at: usize,
    compared: usize,
    wrong: Option<usize>,
}

// Rooms are written after what is told.
pub fn first<'a>(answer: &'a [usize], lengths: &'a [usize], told: usize) -> Check<'a> {
    Check {
        answer,
        lengths,
        at: told,
        compared: 0,
        wrong: None,
    }
}

impl<'a> Check<'a> {
    // How the next room is written: 0 for zeros, 1 for as it was, or 2 and a list of its first entries, after which it is as it was. Where that ends.
    fn end(&self) -> usize {
        let Some(next) = self.at.checked_add(1) else {
            return calls::NOWHERE;
        };
        match self.answer.get(self.at) {
            Some(0 | 1) => next,
            Some(2) => {
                if calls::entry(self.answer, next) <= self.length() {
                    calls::after(self.answer, next)
                } else {
                    calls::NOWHERE
                }
            }
            _ => calls::NOWHERE,
        }
    }

    fn length(&self) -> usize {
        calls::entry(self.lengths, self.compared)
    }

    fn expected(&self, end: usize, before: usize) -> Expected<'a> {
        let entries = if self.at < end {
            calls::entries(self.answer, self.at + 1, end)
        } else {
            &self.answer[0..0]
        };
        let zeros = calls::entry(self.answer, self.at) == 0;
        Expected {
            entries,
            rest: if zeros { 0 } else { before },
            n: self.length(),
        }
    }

    fn after(self, end: usize, same: bool) -> Check<'a> {
        let compared = self.compared.saturating_add(1);
        let here = if same { None } else { Some(compared) };
        Check {
            at: end,
            compared,
            wrong: self.wrong.or(here),
            ..self
        }
    }

    pub fn room<T: Entry>(self, room: &[T]) -> Check<'a> {
        let end = self.end();
        let same = self.expected(end, T::BEFORE).is(room);
        self.after(end, same)
    }

    pub fn waiting(self, wholes: &[[u32; 6]], triples: &[[f64; 3]]) -> Check<'a> {
        let end = self.end();
        let same = self.expected(end, 9).is_waiting(wholes, triples);
        self.after(end, same)
    }

    pub fn judged(self, told: &[usize]) -> Verdict {
        if let Some(n) = wrong_number(self.answer, told) {
            return Verdict::Number(n);
        }
        if self.at != self.answer.len() {
            return Verdict::Malformed;
        }
        match self.wrong {
            Some(n) => Verdict::Room(n),
            None => Verdict::Agrees,
        }
    }
}

// A refusal's four numbers.
pub fn told_of(t: Refusal) -> [usize; 4]
    ensures { 4 ≡ length result }
{
    [
        t.number as usize,
        t.part as usize,
        t.place as usize,
        t.row as usize,
    ]
}
