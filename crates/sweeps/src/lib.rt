// A stretch of a column swept: its flagged rows go to its front, the others to a scratch and from there behind them.
#![tactic(auto)]

ghost use Rattle.std.specs.Prelude.{◌≡◌, cond, ◌+◌, ◌≤◌, length};
ghost use Rattle.std.proofs.Math.Seq.{paste};
ghost use Rattle.sweeps.specs.Swept.{flagged, SweepAsks, SweepDone, PartDone, TwoDone, FourDone};

// The rows from `start` on in one pass: the flagged ones to the front of the stretch, the others to the front of the scratch. Each row is written to both.
// It goes on from where another stopped: what it promises holds if the rows before `start` are swept already, and `found` of them are flagged.
fn sweep(col: &mut [u32], scratch: &mut [u32], flags: &[bool], start: usize, found: usize) -> usize
    requires { SweepAsks col.old (length scratch.old) (length flags.now) start found }
    ensures { SweepDone (flagged flags.now) col.old scratch.old start found col.new scratch.new result }
{
    let mut w = found;
    for i in start..col.len() {
        let e = col[i];
        let t = flags[e as usize];
        let f = i - w;
        col[w] = e;
        scratch[f] = e;
        if t {
            w += 1;
        }
    }
    w
}

// The first n of src, copied over dst from `at` on. A loop, which the compiler writes out in place: `copy_from_slice` is a call of `memmove` for every column of a node, which is slower, and
// asks one thing more of whoever links the library (docs/BOUNDARY.md).
fn copy_in(dst: &mut [u32], at: usize, src: &[u32], n: usize)
    requires { (at + n ≤ length dst.old) × (n ≤ length src.now) }
    ensures { dst.new ≡ paste dst.old at src.now n }
{
    for j in 0..n {
        dst[at + j] = src[j];
    }
}

// A stretch partitioned, if it is swept up to `start` already. Answers how many are flagged.
pub fn part_from(
    col: &mut [u32],
    scratch: &mut [u32],
    flags: &[bool],
    start: usize,
    found: usize,
) -> usize
    requires { SweepAsks col.old (length scratch.old) (length flags.now) start found }
    ensures { PartDone (flagged flags.now) col.old scratch.old start found col.new result }
{
    let n = col.len();
    let w = sweep(col, scratch, flags, start, found);
    copy_in(col, w, scratch, n - w);
    w
}

// ---- the first rows: what is compiled has no branch for `usize::from` and `pick`, and so none on where the front ends, which cannot be foreseen

// Two rows and four are written out: in a loop over N flags each place hangs on all flags before it, and is no plainer.

// x if b is set, or else y.
fn pick<T: Copy>(b: bool, x: T, y: T) -> T
    ensures { result ≡ cond b x y }
{
    if b { x } else { y }
}

// The first two rows swept, s and t being their flags. If the first one stays, the second is written in its stead.
pub fn sweep_two(col: &mut [u32], scratch: &mut [u32], s: bool, t: bool) -> usize
    requires { (2 ≤ length col.old) × (2 ≤ length scratch.old) }
    ensures { TwoDone s t col.old scratch.old col.new scratch.new result }
{
    let last = col[1];
    let first = pick(s, last, col[0]);
    let a = usize::from(s);
    let b = a + usize::from(t);
    let f = 1 - a;
    scratch[0] = first;
    col[a] = last;
    scratch[f] = last;
    b
}

// The first four rows swept, s, t, u and v being their flags. In the stead of a row that stays, what is written for the next row is written, to the same place.
pub fn sweep_four(col: &mut [u32], scratch: &mut [u32], s: bool, t: bool, u: bool, v: bool) -> usize
    requires { (4 ≤ length col.old) × (4 ≤ length scratch.old) }
    ensures { FourDone s t u v col.old scratch.old col.new scratch.new result }
{
    let two = s & t;
    let three = two & u;
    let last = col[3];
    let third = pick(three, last, col[2]);
    let second = pick(two, third, col[1]);
    let first = pick(s, second, col[0]);
    let late = usize::from(three);
    let a = usize::from(s);
    let b = a + usize::from(t);
    let c = b + usize::from(u);
    let d = c + usize::from(v);
    let w = a + usize::from(two) + late;
    let x = b + late;
    let f = 1 - a;
    let g = 2 - b;
    let h = 3 - c;
    scratch[0] = first;
    col[w] = second;
    scratch[f] = second;
    col[x] = third;
    scratch[g] = third;
    col[c] = last;
    scratch[h] = last;
    d
}
