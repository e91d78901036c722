// In which trees' bags a row is, by the counts. No counts at all is an empty slice.
#![tactic(auto)]

ghost use Rattle.std.specs.Prelude.{◌≡◌, cond};
ghost use Rattle.bags.specs.Bags.{is_out, Numberable, OutNumbered};

// Without counts every row is out of every bag.
pub fn is_out(counts: &[u32], at: usize) -> bool
    ensures { result ≡ is_out counts.now at }
{
    at >= counts.len() || counts[at] == 0
}

fn out_mark(counts: &[u32], at: usize) -> u32
    ensures { result ≡ cond (is_out counts.now at) 1 0 }
{
    is_out(counts, at) as u32
}

// Of how many trees' bags row i is out. Counted in a loop: in a chain the place of a count would need a bound from the range's items.
pub fn out_number(rows: usize, trees: usize, counts: &[u32], i: usize) -> u32
    requires { Numberable rows trees i }
    ensures { OutNumbered rows trees counts.now i result }
{
    if counts.len() == 0 {
        return trees as u32;
    }
    let mut number: u32 = 0;
    for t in 0..trees {
        let at = t * rows + i;
        number += out_mark(counts, at);
    }
    number
}
