// What set-up and split do with the work room.
#![tactic(auto)]

ghost use Rattle.std.specs.Prelude.{◌≡◌, map, length};
ghost use Rattle.rules.specs.Words.{from, keep, total};
ghost use Rattle.rules.specs.Lent.{count_in};
ghost use Rattle.rules.specs.Totals.{empty};
ghost use Rattle.rules.specs.Search.{totals_of};
ghost use Rattle.lemmas.specs.Work.{part};
ghost use Rattle.sweeps.specs.Swept.{flagged, parted};
ghost use Rattle.work_columns.specs.Columns.{KeptTo, KeptAll, parted_columns, ColumnsAsk};
ghost use Rattle.work_columns.specs.Split.{GatherDone, PassDone, SplitDone};
ghost use Rattle.work_columns.specs.Rows.{row_in, bare_in, keeps_in, RootAsksIn, CountAsksIn, KeepAsksIn, KeepAllAsksIn, GatherAsksIn, PassAsksIn, SplitAsksIn};

use criterion::Side;
use rules::{Cut, Input, Shape, Totals};

// The true side and the false one, the whole node's totals, and how many rows the true side has.
#[derive(Clone, Copy)]
pub struct Sides {
    pub trueside: Side,
    pub falseside: Side,
    pub all: Totals,
    pub rows: u32,
}

// A side, and what the whole is with it.
#[derive(Clone, Copy)]
pub struct Gathered {
    pub side: Side,
    pub all: Totals,
}

// ---- set-up

// Over every row, kept or not, from row 0 on.
pub fn root_totals(input: &Input, rows: usize) -> Totals
    requires { RootAsksIn rows input.now }
    ensures { result ≡ totals_of empty (map (bare_in input.now) (from 0 rows)) }
{
    let targets = input.targets;
    let weights = input.weights;
    let counts = input.counts;
    let mut t = criterion::no_rows();
    for i in 0..rows {
        let m = criterion::mass_of(weights, counts, i);
        t = criterion::take_in(t, targets[i], m);
    }
    t
}

// The root's count.
pub fn kept_count(input: &Input, rows: usize) -> u32
    requires { CountAsksIn rows input.now }
    ensures { result ≡ total (count_in input.now.counts.now) (keep (keeps_in input.now) (from 0 rows)) }
{
    let weights = input.weights;
    let counts = input.counts;
    let mut n: u32 = 0;
    for i in 0..rows {
        if criterion::is_kept(weights, counts, i) {
            n += counts[i];
        }
    }
    n
}

// The kept rows of a listing, in its order, at the front of a column. Answers how many.
// Every row is written and the place moves on where it is kept: no branch depends on the bag.
pub fn kept_column(column: &mut [u32], listing: &[u32], input: &Input) -> usize
    requires { KeepAsksIn input.now listing.now (length column.old) }
    ensures { KeptTo (keeps_in input.now) listing.now column.new result }
{
    let weights = input.weights;
    let counts = input.counts;
    let mut n: usize = 0;
    for e in listing {
        column[n] = *e;
        if criterion::is_kept(weights, counts, *e as usize) {
            n += 1;
        }
    }
    n
}

// Every feature's listing. Each has every row once, so each column gets as many.
pub fn kept_columns(order: &mut [u32], input: &Input, shape: Shape) -> usize
    requires { KeepAllAsksIn shape input.now (length order.old) }
    ensures { KeptAll (keeps_in input.now) shape.rows shape.features input.now.listings.now order.new result }
{
    let rows = shape.rows;
    let listings = input.listings;
    let mut n: usize = 0;
    for k in 0..shape.features {
        let base = k * rows;
        let end = base + rows;
        n = kept_column(&mut order[base..end], &listings[base..end], input);
    }
    n
}

// ---- partition

// The rows from `start` to `end` of every column partitioned. Those of the column `but` are parted as they stand, and are left so.
pub fn partition_columns(
    order: &mut [u32],
    scratch: &mut [u32],
    flags: &[bool],
    shape: Shape,
    start: usize,
    end: usize,
    but: usize,
)
    requires columns_ask { ColumnsAsk shape.rows shape.features start end order.old (length scratch.old) (length flags.now) }
    requires order_value { parted (flagged flags.now) (part shape.rows but start end order.old) ≡ part shape.rows but start end order.old }
    ensures { order.new ≡ parted_columns shape.rows start end (flagged flags.now) shape.features order.old }
{
    let rows = shape.rows;
    for k in 0..shape.features {
        if k != but {
            let low = k * rows + start;
            let high = k * rows + end;
            partition::stable_partition(&mut order[low..high], scratch, flags);
        }
    }
}

// ---- the split pass

// The rows of a column on one side, all flagged t; and the whole, which had `start`, with them.
fn gather(flags: &mut [bool], input: &Input, col: &[u32], t: bool, start: Totals) -> Gathered
    requires { GatherAsksIn input.now col.now (length flags.old) }
    ensures { GatherDone (bare_in input.now) t start col.now flags.old flags.new result }
{
    let targets = input.targets;
    let weights = input.weights;
    let counts = input.counts;
    let mut side = criterion::no_side();
    let mut all = start;
    for e in col {
        let row = *e as usize;
        let m = criterion::mass_of(weights, counts, row);
        side = criterion::join(side, targets[row], m, counts[row]);
        all = criterion::take_in(all, targets[row], m);
        flags[row] = t;
    }
    Gathered { side, all }
}

// Along the split column's stretch, whose first n rows are the true side: each row gets its flag, and its side and the whole take it in. No value is read.
pub fn split_pass(
    flags: &mut [bool],
    input: &Input,
    col: &[u32],
    shape: Shape,
    cut: Cut,
    n: u32,
) -> Sides
    requires { PassAsksIn shape input.now cut col.now n (length flags.old) }
    ensures { PassDone (row_in shape.features input.now) cut col.now flags.old flags.new result }
{
    let (front, rest) = col.split_at(n as usize);
    let true_side = gather(flags, input, front, true, criterion::no_rows());
    let false_side = gather(flags, input, rest, false, true_side.all);
    Sides {
        trueside: true_side.side,
        falseside: false_side.side,
        all: false_side.all,
        rows: n,
    }
}

// The pass of a node whose rows lie from `start` to `end` of every column, n of them on the true side.
pub fn split_sides(
    flags: &mut [bool],
    input: &Input,
    order: &[u32],
    shape: Shape,
    start: usize,
    end: usize,
    cut: Cut,
    n: u32,
) -> Sides
    requires { SplitAsksIn shape start end input.now cut order.now n (length flags.old) }
    ensures { SplitDone shape.rows start end (row_in shape.features input.now) cut order.now flags.new result }
{
    let base = cut.feature as usize * shape.rows;
    split_pass(
        flags,
        input,
        &order[base + start..base + end],
        shape,
        cut,
        n,
    )
}
