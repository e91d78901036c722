// The numbers and lists of a call. A list begins with its length, and its place is where that stands. No list is copied: the call stands
// three times, as numbers, as floats and as words, and a list is a part of one of the three.
use rules::{Input, Settings, Shape, Table, Tapes, TreeSettings};

// The end of a list that is malformed or cut off, and of every further list.
pub const NOWHERE: usize = 18446744073709551615;

// The highest word.
pub const MOST: usize = 4294967295;

// ---- the numbers, as they are, as floats and as words

pub fn as_reals(call: &[usize], into: &mut [f64]) {
    for (x, n) in into.iter_mut().zip(call) {
        *x = bits::float_of(*n as u64);
    }
}

// A number that is no word stands in no list of words.
pub fn word(n: usize) -> u32 {
    u32::try_from(n).unwrap_or(0)
}

pub fn as_words(call: &[usize], into: &mut [u32]) {
    for (x, n) in into.iter_mut().zip(call) {
        *x = word(*n);
    }
}

// ---- lists

// What stands at a place, or 0.
pub fn entry<T: Copy + Default>(list: &[T], at: usize) -> T {
    list.get(at).copied().unwrap_or_default()
}

// The entries of a list, from its place to its end.
pub fn entries<T>(list: &[T], at: usize, end: usize) -> &[T] {
    if at < end && end <= list.len() {
        &list[at + 1..end]
    } else {
        &list[0..0]
    }
}

// What stands from a place on.
pub fn rest(list: &[usize], at: usize) -> &[usize] {
    if at <= list.len() {
        &list[at..]
    } else {
        &list[0..0]
    }
}

// Where a list ends: there the call goes on.
pub fn after(list: &[usize], at: usize) -> usize {
    if list.len() <= at {
        return NOWHERE;
    }
    let from = at + 1;
    let count = list[at];
    if list.len() - from < count {
        return NOWHERE;
    }
    from + count
}

fn words_fit(list: &[usize]) -> bool {
    list.iter().all(|n| *n <= MOST)
}

// ---- a call

// The places of the six columns of a tree, or of a forest, and the last one's end.
#[derive(Clone, Copy)]
pub struct Columns {
    pub value: usize,
    pub feature: usize,
    pub threshold: usize,
    pub score: usize,
    pub truechild: usize,
    pub falsechild: usize,
    pub end: usize,
}

// The places of the lists that a fit of one tree and that of a forest are both lent, and the last one's end.
#[derive(Clone, Copy)]
pub struct Lists {
    pub values: usize,
    pub targets: usize,
    pub weights: usize,
    pub counts: usize,
    pub listings: usize,
    pub words: usize,
    pub thresholds: usize,
    pub end: usize,
}

#[derive(Clone, Copy)]
pub struct Call<'a> {
    pub numbers: &'a [usize],
    pub reals: &'a [f64],
    pub words: &'a [u32],
}

impl<'a> Call<'a> {
    pub fn number(&self, at: usize) -> usize {
        entry(self.numbers, at)
    }

    pub fn shape(&self) -> Shape {
        Shape {
            rows: self.number(0),
            features: self.number(1),
        }
    }

    pub fn numbers(&self, at: usize, end: usize) -> &'a [usize] {
        entries(self.numbers, at, end)
    }

    pub fn reals(&self, at: usize, end: usize) -> &'a [f64] {
        entries(self.reals, at, end)
    }

    pub fn words(&self, at: usize, end: usize) -> &'a [u32] {
        entries(self.words, at, end)
    }

    pub fn rest(&self, at: usize) -> &'a [usize] {
        rest(self.numbers, at)
    }

    pub fn after(&self, at: usize) -> usize {
        after(self.numbers, at)
    }

    // The end of a list whose entries have to be words.
    pub fn after_words(&self, at: usize) -> usize {
        let end = self.after(at);
        if words_fit(self.numbers(at, end)) {
            end
        } else {
            NOWHERE
        }
    }

    pub fn columns(&self, at: usize) -> Columns {
        let feature = self.after(at);
        let threshold = self.after_words(feature);
        let score = self.after(threshold);
        let truechild = self.after(score);
        let falsechild = self.after_words(truechild);
        let end = self.after_words(falsechild);
        Columns {
            value: at,
            feature,
            threshold,
            score,
            truechild,
            falsechild,
            end,
        }
    }

    pub fn table(&self, c: Columns) -> Table<'a> {
        Table {
            value: self.reals(c.value, c.feature),
            feature: self.words(c.feature, c.threshold),
            threshold: self.reals(c.threshold, c.score),
            score: self.reals(c.score, c.truechild),
            truechild: self.words(c.truechild, c.falsechild),
            falsechild: self.words(c.falsechild, c.end),
        }
    }

    pub fn lists(&self, at: usize) -> Lists {
        let targets = self.after(at);
        let weights = self.after(targets);
        let counts = self.after(weights);
        let listings = self.after_words(counts);
        let words = self.after_words(listings);
        let thresholds = self.after_words(words);
        let end = self.after(thresholds);
        Lists {
            values: at,
            targets,
            weights,
            counts,
            listings,
            words,
            thresholds,
            end,
        }
    }

    pub fn input(&self, l: Lists) -> Input<'a> {
        Input {
            values: self.reals(l.values, l.targets),
            targets: self.reals(l.targets, l.weights),
            weights: self.reals(l.weights, l.counts),
            counts: self.words(l.counts, l.listings),
            listings: self.words(l.listings, l.words),
        }
    }

    pub fn tapes(&self, l: Lists) -> Tapes<'a> {
        Tapes {
            words: self.words(l.words, l.thresholds),
            thresholds: self.reals(l.thresholds, l.end),
        }
    }
}

// ---- what a fit is told of its trees

// Depth, least leaf, least split, the number tried, the splitter, and where it cuts. How many features may be tried is for the call to say.
pub fn settings_good(told: &[usize]) -> bool {
    6 <= told.len() && told[0] <= 65536 && told[4] <= 1 && told[5] <= 1 && words_fit(&told[1..3])
}

pub fn settings_of(told: &[usize]) -> Settings {
    let depth = u16::try_from(entry(told, 0));
    Settings::from(TreeSettings {
        limited: depth.is_ok(),
        limit: depth.unwrap_or(0),
        leaf: word(entry(told, 1)),
        split: word(entry(told, 2)),
        tried: word(entry(told, 3)),
        random: entry(told, 4) == 1,
        lower: entry(told, 5) == 1,
    })
}
