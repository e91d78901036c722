// A stretch of a column partitioned: its flagged rows first, then the others, each in their order. The flagged rows at its front stay where they are.
#![tactic(auto)]

ghost use Rattle.std.specs.Prelude.{◌≡◌, ◌≤◌, ◌<◌, length, get_or};
ghost use Rattle.lemmas.specs.Lists.{Every};
ghost use Rattle.sweeps.specs.Swept.{flagged, Parted, PartAsks};
ghost use Rattle.partition.specs.Looks.{Front, FirstFalse, LookAsks};

// ---- where the front ends

// Is the row at place i of a stretch flagged?
fn flag_at(col: &[u32], flags: &[bool], i: usize) -> bool
    requires { (i < length col.now) × Every (λ r. r < length flags.now) col.now }
    ensures { result ≡ flagged flags.now (get_or col.now i 0) }
{
    flags[col[i] as usize]
}

// The first place from `start` on whose row is not flagged, or the end. All rows before `start` are flagged.
fn first_false(col: &[u32], flags: &[bool], start: usize) -> usize
    requires { LookAsks flags.now col.now start }
    ensures { FirstFalse (flagged flags.now) col.now result }
{
    for k in start..col.len() {
        if !flag_at(col, flags, k) {
            return k;
        }
    }
    col.len()
}

// A place before which all rows are flagged, reached from `start` by fours: with fewer branches than row by row, which along a long front is what counts.
// Counted by hand: `step_by` would need an end three rows before the column's and a case for shorter ones; chunks, their number turned into a place.
fn flagged_fours(col: &[u32], flags: &[bool], start: usize) -> usize
    requires { LookAsks flags.now col.now start }
    ensures { Front (flagged flags.now) col.now result }
{
    let mut k = start;
    while k + 4 <= col.len() {
        let a = flag_at(col, flags, k);
        let b = flag_at(col, flags, k + 1);
        let c = flag_at(col, flags, k + 2);
        let d = flag_at(col, flags, k + 3);
        if !(a & b & c & d) {
            return k;
        }
        k += 4;
    }
    k
}

// ---- the partition

// A stretch partitioned whose rows before `start` are all flagged. Nothing is written before the first row that is not.
fn part_behind(col: &mut [u32], scratch: &mut [u32], flags: &[bool], start: usize) -> usize
    requires { PartAsks col.old (length scratch.old) (length flags.now) × Front (flagged flags.now) col.old start }
    ensures { Parted (flagged flags.now) col.old col.new result }
{
    let fours = flagged_fours(col, flags, start);
    let k = first_false(col, flags, fours);
    k + sweeps::part_from(&mut col[k..], scratch, flags, 0, 0)
}

// A stretch of two or three rows.
fn part_two(col: &mut [u32], scratch: &mut [u32], flags: &[bool]) -> usize
    requires { PartAsks col.old (length scratch.old) (length flags.now) × (2 ≤ length col.old) }
    ensures { Parted (flagged flags.now) col.old col.new result }
{
    let s = flag_at(col, flags, 0);
    let t = flag_at(col, flags, 1);
    if s & t {
        part_behind(col, scratch, flags, 2)
    } else {
        let w = sweeps::sweep_two(col, scratch, s, t);
        sweeps::part_from(col, scratch, flags, 2, w)
    }
}

// A stretch of four rows or more. In a mixed column the front mostly ends within the first four, and this can be foreseen; where it ends, cannot.
fn part_four(col: &mut [u32], scratch: &mut [u32], flags: &[bool]) -> usize
    requires { PartAsks col.old (length scratch.old) (length flags.now) × (4 ≤ length col.old) }
    ensures { Parted (flagged flags.now) col.old col.new result }
{
    let s = flag_at(col, flags, 0);
    let t = flag_at(col, flags, 1);
    let u = flag_at(col, flags, 2);
    let v = flag_at(col, flags, 3);
    if s & t & u & v {
        part_behind(col, scratch, flags, 4)
    } else {
        let w = sweeps::sweep_four(col, scratch, s, t, u, v);
        sweeps::part_from(col, scratch, flags, 4, w)
    }
}

// The flagged rows of a stretch first, then the others, each in their order. Answers how many are flagged.
// The flagged rows at its front stand where they belong: writing begins at the first row that is not flagged.
pub fn stable_partition(col: &mut [u32], scratch: &mut [u32], flags: &[bool]) -> usize
    requires { PartAsks col.old (length scratch.old) (length flags.now) }
    ensures { Parted (flagged flags.now) col.old col.new result }
{
    match col.len() {
        0..=1 => part_behind(col, scratch, flags, 0),
        2..=3 => part_two(col, scratch, flags),
        _ => part_four(col, scratch, flags),
    }
}
