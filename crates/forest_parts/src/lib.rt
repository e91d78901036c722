// Which part of the counts and of both tapes a tree of a forest is grown from, and where its nodes end.
#![tactic(auto)]

ghost use Rattle.std.specs.Prelude.{◌≡◌, ◌+◌, ◌<◌};
ghost use Rattle.forest_parts.specs.Parts.{PartsAsk, parts_at};

use rules::TapeStarts;

// From where to where; no `Range`, which cannot be copied.
#[derive(Clone, Copy)]
pub struct Span {
    pub start: usize,
    pub end: usize,
}

// From where to where a tree has the counts, the words and the thresholds.
#[derive(Clone, Copy)]
pub struct Parts {
    pub counts: Span,
    pub words: Span,
    pub thresholds: Span,
}

pub fn parts_of(starts: &TapeStarts, rows: usize, t: usize) -> Parts
    requires { PartsAsk rows t starts.now.words.now starts.now.thresholds.now }
    ensures { result ≡ parts_at rows t starts.now.words.now starts.now.thresholds.now }
{
    let count = t * rows;
    let words = starts.words;
    let thresholds = starts.thresholds;
    Parts {
        counts: Span {
            start: count,
            end: count + rows,
        },
        words: Span {
            start: words[t],
            end: words[t + 1],
        },
        thresholds: Span {
            start: thresholds[t],
            end: thresholds[t + 1],
        },
    }
}

// The place behind the nodes of a tree that starts at `at`.
pub fn end_of(at: usize, nodes: u32) -> usize
    requires { at + nodes < 4294967296 }
    ensures { result ≡ at + nodes }
{
    at + nodes as usize
}
