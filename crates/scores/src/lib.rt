// Scores by feature, one place a feature: a node's added, divided, normalised, and a tree's added to a forest's.
#![tactic(auto)]

ghost use Rattle.std.specs.Prelude.{◌≡◌, false, not, ◌<◌, length};
ghost use Rattle.rules.specs.Words.{nought};
ghost use Rattle.rules.specs.Table.{is_leaf};
ghost use Rattle.rules.specs.Reading.{scored, sum_from, divided_if, normalised, scaled, add_each};
ghost use Rattle.entries.specs.Entries.{no_child};
ghost use Rattle.scores.specs.Nodes.{marked};
ghost use Rattle.scores.specs.Lists.{divided_by};

use rules::Scale;

// A node's score is added to its feature's, unless it is a leaf.
pub fn add_score(v: &mut [f64], feature: u32, score: f64, truechild: u32, falsechild: u32)
    requires { no_child truechild falsechild ≡ false → feature < length v.old }
    ensures { v.new ≡ scored (not (is_leaf (marked feature score truechild falsechild))) (marked feature score truechild falsechild) v.old }
{
    if !entries::is_leaf(truechild, falsechild) {
        v[feature as usize] += score;
    }
}

// From +0 on: the library's sum of floats starts at -0.
fn sum_of(v: &[f64]) -> f64
    ensures { result ≡ sum_from nought v.now }
{
    v.iter().fold(0.0, |sum, x| sum + *x)
}

pub fn divide(v: &mut [f64], by: f64)
    ensures { v.new ≡ divided_by by v.old }
{
    for x in v.iter_mut() {
        *x /= by;
    }
}

// A NaN is not above 0.
fn divide_if(v: &mut [f64], by: f64)
    ensures { v.new ≡ divided_if by v.old }
{
    if 0.0 < by {
        divide(v, by);
    }
}

pub fn normalise(v: &mut [f64])
    ensures { v.new ≡ normalised v.old }
{
    let sum = sum_of(v);
    divide_if(v, sum);
}

pub fn scale(v: &mut [f64], by: Scale)
    ensures { v.new ≡ scaled by v.old }
{
    match by {
        Scale::Normalised => normalise(v),
        Scale::ByMass(mass) => divide_if(v, mass),
    }
}

// By places: of what `iter_mut().zip(w)` writes no invariant of a loop could speak.
fn add_each(v: &mut [f64], w: &[f64])
    requires { length v.old ≡ length w.now }
    ensures { v.new ≡ add_each v.old w.now }
{
    for (i, x) in v.iter_mut().enumerate() {
        *x += w[i];
    }
}

// A tree's scores, normalised where they stand, are added to a forest's.
pub fn add_tree(v: &mut [f64], own: &mut [f64])
    requires { length v.old ≡ length own.old }
    ensures { v.new ≡ add_each v.old (normalised own.old) }
{
    normalise(own);
    add_each(v, own);
}
