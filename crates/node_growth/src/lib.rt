// A node of a tree that grows: the waiting list in two slices of arrays, eight node columns, and work columns that are split in place.
#![tactic(auto)]

ghost use Rattle.std.specs.Prelude.{◌≡◌, ◌+◌, ◌<◌, length};
ghost use Rattle.rules.specs.Slices.{SameNodes};
ghost use Rattle.work_columns.specs.Split.{SplitDone};
ghost use Rattle.work_columns.specs.Rows.{row_in, SplitAsksIn};
ghost use Rattle.node_entries.specs.Entries.{room_in, LongRoom};
ghost use Rattle.node_growth.specs.Rooms.{ground_in, RowsUnder, HeldDone, RowsTo, PushDone, ChildAsks, ChildDone, cut_of, wrote_sides};
ghost use Rattle.node_growth.specs.Pairs.{stretch_at, PairAsks, PairDone, root_sides, root_pair, child_sides, children_of, PartAsks, PartDone};

use candidates::Candidate;
use criterion::Side;
use node_entries::WaitingNode;
use rules::{Cut, Input, NodeRoom, Params, Shape, Tapes};
use search::{Drawn, Search};
use work_columns::Sides;

// How many wait, and how far the tapes are used.
#[derive(Clone, Copy)]
pub struct Stand {
    pub waiting: usize,
    pub drawn: Drawn,
}

// The search at which a bad draw was met.
#[derive(Clone, Copy)]
pub struct BadSearch {
    pub search: usize,
}

// Two nodes whose rows lie side by side, the first from `from` to `mid`, the second from there to `to`; `node` is the first one's number. The first `sides` of them are
// still to be searched: of the root and the empty side beside it at most the root, of a split node's children both or neither. An empty side's count would not tell,
// since the least split may be 0.
#[derive(Clone, Copy)]
pub struct Pair {
    pub node: u32,
    pub level: u32,
    pub from: u32,
    pub mid: u32,
    pub to: u32,
    pub first: Side,
    pub second: Side,
    pub sides: u32,
}

// One of them: its number and level, where its rows lie, its totals and count.
#[derive(Clone, Copy)]
pub struct Stretch {
    pub node: u32,
    pub level: u32,
    pub from: u32,
    pub to: u32,
    pub side: Side,
}

// What a search of the node held joins the waiting list.
pub fn push_held(
    wholes: &mut [[u32; 6]],
    reals: &mut [[f64; 3]],
    n: usize,
    c: Stretch,
    h: Candidate,
    d: Drawn,
) -> Stand
    requires wholes_long { n < length wholes.old }
    requires reals_long { n < length reals.old }
    requires rows_small { RowsUnder c.to h.held h.rows }
    ensures { HeldDone wholes.old reals.old wholes.new reals.new n c h d result }
{
    let Some((cut, _)) = h.held else {
        return Stand {
            waiting: n,
            drawn: d,
        };
    };
    let t = c.side.totals;
    let w = WaitingNode {
        node: c.node,
        start: c.from,
        end: c.to,
        level: c.level,
        rows: h.rows as u32,
        feature: cut.feature,
        sum: t.sum,
        mass: t.mass,
        cut: cut.threshold,
    };
    node_entries::push(wholes, reals, n, w);
    Stand {
        waiting: n + 1,
        drawn: d,
    }
}

// What a search of the node answers: a bad draw, met at the search whose number d has, or what it held.
pub fn push_found(
    wholes: &mut [[u32; 6]],
    reals: &mut [[f64; 3]],
    n: usize,
    c: Stretch,
    d: Drawn,
    r: Search,
) -> Result<Stand, BadSearch>
    requires wholes_long { n < length wholes.old }
    requires reals_long { n < length reals.old }
    requires rows_small { RowsTo c.to r }
    ensures { PushDone wholes.old reals.old wholes.new reals.new n c d r result }
{
    let Ok((h, e)) = r else {
        return Err(BadSearch { search: d.searches });
    };
    Ok(push_held(wholes, reals, n, c, h, e))
}

// What the search of a child finds joins the waiting list.
pub fn search_child(
    wholes: &mut [[u32; 6]],
    reals: &mut [[f64; 3]],
    input: &Input,
    order: &[u32],
    tapes: &Tapes,
    shape: Shape,
    p: Params,
    c: Stretch,
    s: Stand,
) -> Result<Stand, BadSearch>
    requires { ChildAsks (ground_in shape input.now order.now) p tapes.now.words.now c s (length wholes.old) (length reals.old) }
    ensures { ChildDone (ground_in shape input.now order.now) p tapes.now.words.now tapes.now.thresholds.now wholes.old reals.old wholes.new reals.new c s result }
{
    if !candidates::is_searched(p, c.level, c.side) {
        return Ok(s);
    }
    let d = s.drawn;
    let found = search::search_node(
        input,
        order,
        tapes,
        shape,
        c.from as usize,
        c.to as usize,
        p,
        c.side,
        d,
    );
    push_found(wholes, reals, s.waiting, c, d, found)
}

// A node's split: its rows get their flags, and the node and its children are written. The score takes totals that are added up afresh.
pub fn split_node(
    flags: &mut [bool],
    room: &mut NodeRoom,
    input: &Input,
    order: &[u32],
    shape: Shape,
    w: WaitingNode,
    n: u32,
) -> Sides
    requires split_asks { SplitAsksIn shape w.start w.end input.now (cut_of w) order.now w.rows (length flags.old) }
    requires room_long { LongRoom (n + 2) (room_in room.old) }
    requires parent_before { w.node < n }
    requires number_small { n + 2 < 4294967296 }
    ensures same_slices { SameNodes room.old room.new }
    ensures split_done { SplitDone shape.rows w.start w.end (row_in shape.features input.now) (cut_of w) order.now flags.new result }
    ensures nodes_after { room_in room.new ≡ wrote_sides w result n (room_in room.old) }
{
    let c = Cut {
        feature: w.feature,
        threshold: w.cut,
    };
    let s = work_columns::split_sides(
        flags,
        input,
        order,
        shape,
        w.start as usize,
        w.end as usize,
        c,
        w.rows,
    );
    let q = criterion::score_of(s.trueside.totals, s.falseside.totals, s.all.mass);
    node_entries::write_split(room, w, s.trueside, s.falseside, q, n);
    s
}

// Of two nodes that lie side by side, the first or the second.
fn stretch_of(q: Pair, k: u32) -> Stretch
    requires { q.node + k < 4294967296 }
    ensures { result ≡ stretch_at q k }
{
    let (from, to, side) = if k == 0 {
        (q.from, q.mid, q.first)
    } else {
        (q.mid, q.to, q.second)
    };
    Stretch {
        node: q.node + k,
        level: q.level,
        from,
        to,
        side,
    }
}

// What is left to search is searched, the true child before the false one. `search_child` has this one call, and so the compiler puts it in place, however large it is.
pub fn search_pair(
    wholes: &mut [[u32; 6]],
    reals: &mut [[f64; 3]],
    input: &Input,
    order: &[u32],
    tapes: &Tapes,
    shape: Shape,
    p: Params,
    q: Pair,
    s: Stand,
) -> Result<Stand, BadSearch>
    requires { PairAsks (ground_in shape input.now order.now) p tapes.now.words.now wholes.old reals.old q s }
    ensures { PairDone (ground_in shape input.now order.now) p tapes.now.words.now tapes.now.thresholds.now wholes.old reals.old wholes.new reals.new q s result }
{
    let mut t = s;
    for k in 0..q.sides {
        let c = stretch_of(q, k);
        t = search_child(wholes, reals, input, order, tapes, shape, p, c, t)?;
    }
    Ok(t)
}

// How many sides of the root are left to search: the root itself, if something is kept.
#[tactic(auto, unfolding(crate::specs::Pairs::root_sides))]
fn root_sides(count: u32) -> u32
    ensures { result ≡ root_sides count }
{
    if 0 < count { 1 } else { 0 }
}

// The root, beside an empty side.
pub fn root_pair(kept: u32, root: Side) -> Pair
    ensures { result ≡ root_pair kept root }
{
    Pair {
        node: 0,
        level: 1,
        from: 0,
        mid: kept,
        to: kept,
        first: root,
        second: root,
        sides: root_sides(root.count),
    }
}

// How many children are left to search: both, if either is searched.
#[tactic(auto, unfolding(crate::specs::Pairs::child_sides))]
fn child_sides(p: Params, level: u32, a: Side, b: Side) -> u32
    ensures { result ≡ child_sides p level a b }
{
    if candidates::either_searched(p, level, a, b) {
        2
    } else {
        0
    }
}

fn children_of(p: Params, w: WaitingNode, n: u32, h: Sides) -> Pair
    requires level_small { w.level + 1 < 4294967296 }
    requires mid_small { w.start + h.rows < 4294967296 }
    ensures { result ≡ children_of p w n h }
{
    let level = w.level + 1;
    Pair {
        node: n,
        level,
        from: w.start,
        mid: w.start + h.rows,
        to: w.end,
        first: h.trueside,
        second: h.falseside,
        sides: child_sides(p, level, h.trueside, h.falseside),
    }
}

// The children of a node whose rows have their flags. Where neither is searched, nothing reads those rows again, and the columns stay as they are.
pub fn part_sides(
    order: &mut [u32],
    scratch: &mut [u32],
    flags: &[bool],
    shape: Shape,
    p: Params,
    w: WaitingNode,
    n: u32,
    h: Sides,
) -> Pair
    requires { PartAsks shape.rows shape.features order.old (length scratch.old) flags.now w h }
    ensures { PartDone shape.rows shape.features order.old order.new flags.now p w n h result }
{
    let q = children_of(p, w, n, h);
    if q.sides != 0 {
        work_columns::partition_columns(
            order,
            scratch,
            flags,
            shape,
            w.start as usize,
            w.end as usize,
            w.feature as usize,
        );
    }
    q
}
