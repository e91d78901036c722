// Totals and scores, the threshold between two values, and the numbers that they are made of (criterion.rs).
#![tactic(auto)]

ghost use Rattle.std.specs.Prelude.{◌≡◌, [], ◌+◌, ◌<◌, ◌≤◌};
ghost use Rattle.std.specs.Float.Ieee.Scale.{finite};
ghost use Rattle.rules.specs.Lent.{mass_in, kept_in};
ghost use Rattle.rules.specs.Checks.{good_weight};
ghost use Rattle.rules.specs.Totals.{empty, take_in, less, value_of, proxy, score};
ghost use Rattle.rules.specs.Forest.{tried_of};
ghost use Rattle.criterion.specs.Bounds.{Between, Weighed};
ghost use Rattle.criterion.specs.Sides.{side_on, joined};
ghost use Rattle.criterion.specs.Gaps.{gap_over};

use rules::{Height, Totals, Tried};

// The rows of a node, or of one side of a cut: their totals, and the sum of their counts.
#[derive(Clone, Copy)]
pub struct Side {
    pub totals: Totals,
    pub count: u32,
}

pub fn no_rows() -> Totals
    ensures { result ≡ empty }
{
    Totals {
        sum: 0.0,
        mass: 0.0,
    }
}

#[tactic(auto, unfolding(rules::specs::Totals::take_in))]
pub fn take_in(t: Totals, y: f64, m: f64) -> Totals
    ensures { result ≡ take_in t y m }
{
    Totals {
        sum: t.sum + y * m,
        mass: t.mass + m,
    }
}

#[tactic(auto, unfolding(rules::specs::Search::totals_of, rules::specs::Words::total))]
pub fn no_side() -> Side
    ensures { result ≡ side_on [] }
{
    Side {
        totals: no_rows(),
        count: 0,
    }
}

#[tactic(auto, unfolding(crate::specs::Sides::joined))]
pub fn join(s: Side, y: f64, m: f64, k: u32) -> Side
    requires { s.count + k < 4294967296 }
    ensures { result ≡ joined s y m k }
{
    Side {
        totals: take_in(s.totals, y, m),
        count: s.count + k,
    }
}

#[tactic(auto, unfolding(rules::specs::Totals::less))]
pub fn less_of(t: Totals, u: Totals) -> Totals
    ensures { result ≡ less t u }
{
    Totals {
        sum: t.sum - u.sum,
        mass: t.mass - u.mass,
    }
}

#[tactic(auto, unfolding(rules::specs::Totals::value_of))]
pub fn value_of(t: Totals) -> f64
    ensures { result ≡ value_of t }
{
    if t.mass > 0.0 { t.sum / t.mass } else { 0.0 }
}

// The square of the gap between two sides over a divisor; 0 where a side has no mass, tested as `<= 0`, so that a NaN mass passes.
#[tactic(auto, unfolding(crate::specs::Gaps::gap_over, rules::specs::Totals::massless, rules::specs::Totals::gap))]
fn gap_over(t: Totals, f: Totals, divisor: f64) -> f64
    ensures { result ≡ gap_over t f divisor }
{
    if t.mass <= 0.0 || f.mass <= 0.0 {
        return 0.0;
    }
    let d = t.sum * f.mass - f.sum * t.mass;
    d * d / divisor
}

#[tactic(auto, unfolding(crate::specs::Gaps::gap_over, rules::specs::Totals::proxy))]
pub fn proxy_of(t: Totals, f: Totals) -> f64
    ensures { result ≡ proxy t f }
{
    gap_over(t, f, t.mass * f.mass)
}

#[tactic(auto, unfolding(crate::specs::Gaps::gap_over, rules::specs::Totals::score))]
pub fn score_of(t: Totals, f: Totals, m: f64) -> f64
    ensures { result ≡ score t f m }
{
    gap_over(t, f, t.mass * f.mass * m)
}

// On every p and x the definition's; for either choice, for finite p below x, it is at least p and below x.
pub fn threshold_of(height: Height, p: f64, x: f64) -> f64
    ensures { Between height p x result }
{
    match height {
        Height::Midpoint => {
            let mid = p + (x - p) / 2.0;
            if mid < x { mid } else { p }
        }
        Height::Lower => p,
    }
}

// Neither a NaN nor infinite: of those alone the difference from itself is a NaN.
pub fn is_finite(x: f64) -> bool
    ensures { result ≡ finite x }
{
    x.is_finite()
}

#[tactic(auto, unfolding(rules::specs::Checks::good_weight))]
pub fn weight_good(w: f64) -> bool
    ensures { result ≡ good_weight w }
{
    is_finite(w) && !(w < 0.0)
}

// The mass of row i; no weights at all is an empty slice.
#[tactic(auto, using(crate::specs::Weights::unweighted_is), unfolding(rules::specs::Lent::mass_in, rules::specs::Lent::count_in))]
pub fn mass_of(weights: &[f64], counts: &[u32], i: usize) -> f64
    requires { Weighed i weights.now counts.now }
    ensures { result ≡ mass_in weights.now counts.now i }
{
    let m = slices::float_of(counts[i]);
    if weights.is_empty() {
        m
    } else {
        m * weights[i]
    }
}

// Whether a tree keeps row i.
#[tactic(auto, using(crate::specs::Weights::unweighted_is), unfolding(rules::specs::Lent::kept_in, rules::specs::Lent::count_in))]
pub fn is_kept(weights: &[f64], counts: &[u32], i: usize) -> bool
    requires { Weighed i weights.now counts.now }
    ensures { result ≡ kept_in weights.now counts.now i }
{
    counts[i] > 0 && (weights.is_empty() || weights[i] > 0.0)
}

// The floor of the root.
pub fn root_of(n: u32) -> u32
    requires { n ≤ 1024 }
    ensures { result ≡ tried_of n None }
{
    n.isqrt()
}

pub fn tried_of(features: u32, tried: Tried) -> u32
    requires { features ≤ 1024 }
    ensures { result ≡ tried_of features tried }
{
    tried.unwrap_or_else(|| root_of(features))
}
