// Two forms beside the growth: totals that are lent and changed where they stand, and a lent list of waiting nodes.
#![tactic(auto)]

ghost use Rattle.std.specs.Prelude.{◌≡◌};
ghost use Rattle.rules.specs.Totals.{take_in};
ghost use Rattle.rules.specs.Lent.{outcome_of};
ghost use Rattle.lent_forms.specs.WaitingList.{pushed, popped};

use rules::Totals;

// A row is taken into the totals where they stand.
pub fn add_to(t: &mut Totals, y: f64, m: f64)
    ensures { t.new ≡ take_in t.old y m }
{
    *t = criterion::take_in(*t, y, m);
}

// A node that waits: its number, where its rows lie, its level, how many of them are on the true side of the cut that its search found, the cut's feature, the node's totals, and the cut's threshold.
#[derive(Clone, Copy)]
pub struct Waiting {
    pub node: u32,
    pub start: u32,
    pub end: u32,
    pub level: u32,
    pub rows: u32,
    pub feature: u32,
    pub totals: Totals,
    pub threshold: f64,
}

// The node joins the n that wait. Where the list has no place for it, the list stays as it is and the answer is no.
pub fn push(list: &mut [Waiting], n: usize, w: Waiting) -> bool
    ensures { outcome_of result list.new ≡ pushed list.old n w }
{
    let fits = n < list.len();
    if fits {
        list[n] = w;
    }
    fits
}

// The last of the n that wait, or nothing where none waits.
pub fn pop(list: &[Waiting], n: usize) -> Option<Waiting>
    ensures { result ≡ popped list.now n }
{
    if 0 < n && n <= list.len() {
        Some(list[n - 1])
    } else {
        None
    }
}
