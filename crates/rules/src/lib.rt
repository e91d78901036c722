// The plain types that the definitions (specs/) and the code share. What they mean is said in specs/.
#![tactic(auto)]

ghost use Rattle.std.specs.Prelude.{◌≡◌};
ghost use Rattle.rules.specs.Lent.{shortest, shortest_of_eight};
ghost use Rattle.rules.specs.Slices.{columns_in, nodes_in, behind_in};

pub mod plain;

// R0.7: Sums over rows: of target times mass, and of the masses.
#[derive(Clone, Copy)]
pub struct Totals {
    pub sum: f64,
    pub mass: f64,
}

// R0.8
#[derive(Clone, Copy)]
pub enum Splitter {
    Best,
    Random,
}

// R0.8: Where the best splitter cuts between two measured values: in the middle, or at the lower of them.
#[derive(Clone, Copy)]
pub enum Height {
    Midpoint,
    Lower,
}

// R0.8: What a fit is told of its trees: the greatest depth if there is one, least leaf, least split, splitter, and where the best splitter cuts.
#[derive(Clone, Copy)]
pub struct Settings {
    pub depth: Option<u16>,
    pub leaf: u32,
    pub split: u32,
    pub splitter: Splitter,
    pub height: Height,
}

// R0.9: How many features a search of a forest tries, if it is said; else the floor of the root of their number.
pub type Tried = Option<u32>;

// R0.10: What growth goes by: the settings, the depth as a number, how many features are tried and how many there are.
#[derive(Clone, Copy)]
pub struct Params {
    pub limit: u32,
    pub leaf: u32,
    pub split: u32,
    pub tried: u32,
    pub features: u32,
    pub splitter: Splitter,
    pub height: Height,
}

// R0.11
#[derive(Clone, Copy)]
pub struct Shape {
    pub rows: usize,
    pub features: usize,
}

// R0.12: A row goes to the true side if its value of the feature is at most the threshold.
#[derive(Clone, Copy)]
pub struct Cut {
    pub feature: u32,
    pub threshold: f64,
}

// R0.13: The candidate that a search holds, if it holds one: a cut and its proxy.
pub type Held = Option<(Cut, f64)>;

// R0.14: What is carried along a column: the rows before by totals and count, the value of the run of equals, the candidate.
#[derive(Clone, Copy)]
pub struct Sweep {
    pub before: Totals,
    pub count: u32,
    pub last: f64,
    pub best: Held,
}

// R0.15: A split: its cut, its score, and the number of its true child. The false child's is one more.
#[derive(Clone, Copy)]
pub struct Fork {
    pub cut: Cut,
    pub score: f64,
    pub children: u32,
}

// R0.15: An enum of its own, as the forms in docs/DECISIONS.md ask: a leaf is a kind of node, not a split that is missing.
#[derive(Clone, Copy)]
pub enum Kind {
    Leaf,
    Split(Fork),
}

// R0.16: A node read out.
#[derive(Clone, Copy)]
pub struct Node {
    pub value: f64,
    pub kind: Kind,
}

// R0.17: How a tree's importances are scaled: by their sum, or by a root mass. Neither is an absence, so an option would say less.
#[derive(Clone, Copy)]
pub enum Scale {
    Normalised,
    ByMass(f64),
}

// R0.18: What a fit tells of a tree that it grew. Words and thresholds are those it took from the tapes.
#[derive(Clone, Copy)]
pub struct Report {
    pub nodes: u32,
    pub depth: u32,
    pub mass: f64,
    pub searches: u32,
    pub words: u32,
    pub thresholds: u32,
}

// R0.19: Where a bad draw was met. Both count from 0.
#[derive(Clone, Copy)]
pub struct Place {
    pub tree: u32,
    pub search: u32,
}

// R0.24: What a refusal tells: its number, where it was met, and a row. Of a listing the part is the column and the place is the place in
// it, of a bad draw they are the tree and the search. What there is not to tell is 0.
#[repr(C)]
#[derive(Clone, Copy)]
pub struct Refusal {
    pub number: u32,
    pub part: u32,
    pub place: u32,
    pub row: u32,
}

// R0.24: How the checks of a fit end, and that of listings.
pub type Checked = Result<(), Refusal>;

// R0.20: Why a fit grew nothing.
#[derive(Clone, Copy)]
pub enum FitError {
    Refused(Refusal),
    BadDraw(Place),
}

// R0.20
pub type TreeAnswer = Result<Report, FitError>;

// R0.20
pub type ForestAnswer = Result<(), FitError>;

// R0.21: The answer of a reader that writes its results, and of a check of tables. A refusal is a number here and below: the rules, their theorems and C name refusals by number.
pub type Reply = Result<(), u32>;

// R0.21: An out-of-bag error, and the number of rows that it is over.
#[derive(Clone, Copy)]
pub struct Figure {
    pub error: f64,
    pub rows: u32,
}

// R0.21
pub type ErrorReply = Result<Figure, u32>;

// R0.21: A good tree may have no node of the number asked.
pub type NodeReply = Result<Option<Node>, u32>;

// R0.25: A model file that is misread: by which refusal, and at which byte the field begins, or the bytes that are left over do. Where the file is good but has no room
// the place is 0.
#[derive(Clone, Copy)]
pub struct Misread {
    pub number: u32,
    pub place: usize,
}

// R0.25: What a model file holds.
#[derive(Clone, Copy)]
pub struct Sizes {
    pub features: u32,
    pub trees: u32,
    pub nodes: u32,
}

// R0.25
pub type ModelReply = Result<Sizes, Misread>;

// R0.25: How many bytes a model file has.
pub type SizeReply = Result<usize, u32>;

// ---- what is lent

// R0.27: The data, weights and counts that a fit is given (R2.2).
#[derive(Clone, Copy)]
pub struct Input<'a> {
    pub values: &'a [f64],
    pub targets: &'a [f64],
    pub weights: &'a [f64],
    pub counts: &'a [u32],
    pub listings: &'a [u32],
}

// R0.27: The draws that a fit takes.
#[derive(Clone, Copy)]
pub struct Tapes<'a> {
    pub words: &'a [u32],
    pub thresholds: &'a [f64],
}

// R0.27: Where each tree's part of both tapes starts (R3.8).
#[derive(Clone, Copy)]
pub struct TapeStarts<'a> {
    pub words: &'a [usize],
    pub thresholds: &'a [usize],
}

// R0.27: A table to read (R2.9).
#[derive(Clone, Copy)]
pub struct Table<'a> {
    pub value: &'a [f64],
    pub feature: &'a [u32],
    pub threshold: &'a [f64],
    pub score: &'a [f64],
    pub truechild: &'a [u32],
    pub falsechild: &'a [u32],
}

impl Table<'_> {
    // As long as its shortest column.
    pub fn len(&self) -> usize
        ensures { result ≡ shortest (columns_in self.now) }
    {
        let children = self.truechild.len().min(self.falsechild.len());
        let cuts = self.threshold.len().min(self.score.len().min(children));
        self.value.len().min(self.feature.len().min(cuts))
    }
}

// R0.27: A forest to read: how many trees, where each starts in the table, and the table (R12.5).
#[derive(Clone, Copy)]
pub struct Trees<'a> {
    pub number: usize,
    pub starts: &'a [u32],
    pub table: Table<'a>,
}

// R0.28: A table to write (R2.9).
#[derive(Drop)]
pub struct TableRoom<'a> {
    pub value: &'a mut [f64],
    pub feature: &'a mut [u32],
    pub threshold: &'a mut [f64],
    pub score: &'a mut [f64],
    pub truechild: &'a mut [u32],
    pub falsechild: &'a mut [u32],
}

// R0.28: The node room of a fit: a table's six columns, and beside them each node's count and mass (R2.9). It holds no `TableRoom`: with a struct of lent slices inside
// another no proof closed that the slices hold, once the struct is let go, what was written through it.
#[derive(Drop)]
pub struct NodeRoom<'a> {
    pub value: &'a mut [f64],
    pub feature: &'a mut [u32],
    pub threshold: &'a mut [f64],
    pub score: &'a mut [f64],
    pub truechild: &'a mut [u32],
    pub falsechild: &'a mut [u32],
    pub count: &'a mut [u32],
    pub mass: &'a mut [f64],
}

impl NodeRoom<'_> {
    // As long as the shortest of all eight columns.
    pub fn len(&self) -> usize
        ensures { result ≡ shortest_of_eight (nodes_in self.now) (behind_in self.now) }
    {
        let children = self.truechild.len().min(self.falsechild.len());
        let cuts = self.threshold.len().min(self.score.len().min(children));
        let six = self.value.len().min(self.feature.len().min(cuts));
        six.min(self.count.len().min(self.mass.len()))
    }
}

// R0.28: A forest's report columns (R2.11).
#[derive(Drop)]
pub struct ReportRoom<'a> {
    pub nodes: &'a mut [u32],
    pub depth: &'a mut [u32],
    pub mass: &'a mut [f64],
    pub searches: &'a mut [u32],
    pub words: &'a mut [u32],
    pub thresholds: &'a mut [u32],
}

// R0.28: Work room (R2.14); the waiting list lies in two slices (R2.13), as C lends it.
#[derive(Drop)]
pub struct WorkRoom<'a> {
    pub order: &'a mut [u32],
    pub scratch: &'a mut [u32],
    pub flags: &'a mut [bool],
    pub wholes: &'a mut [[u32; 6]],
    pub reals: &'a mut [[f64; 3]],
}

// ---- settings and answers, as they cross over

// R0.22: The settings of one tree; flags stand beside their values, since C has no option. The limit is heeded where the depth is limited; the splitter is random, or else best; the best
// splitter cuts at the lower of two values, or else in their middle.
#[repr(C)]
#[derive(Clone, Copy)]
pub struct TreeSettings {
    pub limited: bool,
    pub limit: u16,
    pub leaf: u32,
    pub split: u32,
    pub tried: u32,
    pub random: bool,
    pub lower: bool,
}

// R0.22: The settings of a forest, in the same form for C. How many features a search tries is heeded where it is said.
#[repr(C)]
#[derive(Clone, Copy)]
pub struct ForestSettings {
    pub limited: bool,
    pub limit: u16,
    pub leaf: u32,
    pub split: u32,
    pub said: bool,
    pub tried: u32,
    pub random: bool,
    pub lower: bool,
}

// R0.23: What the fit of one tree tells: a refusal, of number 0 where there is none, and the report of a grown tree.
#[repr(C)]
#[derive(Clone, Copy)]
pub struct TreeTold {
    pub number: u32,
    pub part: u32,
    pub place: u32,
    pub row: u32,
    pub nodes: u32,
    pub depth: u32,
    pub mass: f64,
    pub searches: u32,
    pub words: u32,
    pub thresholds: u32,
}

// R0.23: 0 or the number of a refusal, and the error with the number of rows that it is over.
#[repr(C)]
#[derive(Clone, Copy)]
pub struct ErrorTold {
    pub number: u32,
    pub error: f64,
    pub rows: u32,
}

// R0.23: Whether the node is there, and its place in the six columns; all zero where it is not. C has no option.
#[repr(C)]
#[derive(Clone, Copy)]
pub struct NodeTold {
    pub number: u32,
    pub there: bool,
    pub value: f64,
    pub feature: u32,
    pub threshold: f64,
    pub score: f64,
    pub truechild: u32,
    pub falsechild: u32,
}

// R0.26: 0 or the number of a refusal, and how many bytes the file has.
#[repr(C)]
#[derive(Clone, Copy)]
pub struct SizeTold {
    pub number: u32,
    pub bytes: usize,
}

// R0.26: 0 or the number of a refusal, the byte at which it was met, and what the file holds.
#[repr(C)]
#[derive(Clone, Copy)]
pub struct ModelTold {
    pub number: u32,
    pub place: usize,
    pub features: u32,
    pub trees: u32,
    pub nodes: u32,
}
