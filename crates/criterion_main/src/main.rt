// Totals and scores, thresholds and features tried on small vectors. Written out and compared with the file `stdout`.
#![tactic(auto)]

use console::Console;
use rules::{Height, Totals};
use std::fmt::Write;

fn tell(out: &mut Console, name: &str, holds: bool) {
    let answer = if holds { ": yes\n" } else { ": no\n" };
    let _ = write!(out, "{name}{answer}");
}

fn number(out: &mut Console, name: &str, n: u32) {
    let _ = writeln!(out, "{name}: {n}");
}

// Targets 0, 0, 10, 10: the true side has the first two, the rest is what the true side leaves of the whole.
fn totals(out: &mut Console) {
    let none = criterion::no_rows();
    let one = criterion::take_in(none, 0.0, 1.0);
    let yes = criterion::take_in(one, 0.0, 1.0);
    let three = criterion::take_in(yes, 10.0, 1.0);
    let all = criterion::take_in(three, 10.0, 1.0);
    let no = criterion::less_of(all, yes);
    tell(out, "whole", all.sum == 20.0);
    tell(out, "mass", all.mass == 4.0);
    tell(out, "rest", no.sum == 20.0);
    tell(out, "value", criterion::value_of(all) == 5.0);
    tell(out, "value of nothing", criterion::value_of(none) == 0.0);
    tell(out, "proxy", criterion::proxy_of(yes, no) == 400.0);
    tell(
        out,
        "proxy beside nothing",
        criterion::proxy_of(yes, none) == 0.0,
    );
    tell(
        out,
        "score",
        criterion::score_of(yes, no, all.mass) == 100.0,
    );
}

// A mass that is no number passes the test of the proxy, and not the one of the value.
fn no_number(out: &mut Console) {
    let nan = 0.0 / 0.0;
    let odd = Totals {
        sum: 1.0,
        mass: nan,
    };
    let q = criterion::proxy_of(odd, odd);
    tell(out, "proxy of a NaN mass is a NaN", q != q);
    tell(out, "value at a NaN mass", criterion::value_of(odd) == 0.0);
    tell(out, "NaN is finite", criterion::is_finite(nan));
    tell(out, "NaN is a weight", criterion::weight_good(nan));
    tell(out, "infinity is finite", criterion::is_finite(1.0 / 0.0));
    tell(out, "-0 is a weight", criterion::weight_good(-0.0));
    tell(out, "-1 is a weight", criterion::weight_good(-1.0));
}

fn midway(p: f64, x: f64) -> f64 {
    criterion::threshold_of(Height::Midpoint, p, x)
}

// Halfway; between neighbours, where halfway rounds up to the higher; and across all of the format, where the gap is infinite.
// Then the lower of two values, with its sign.
fn thresholds(out: &mut Console) {
    tell(out, "between 1 and 2", midway(1.0, 2.0) == 1.5);
    let p = 1.0000000000000002;
    let x = 1.0000000000000004;
    tell(out, "between neighbours", midway(p, x) == p);
    let low = -1.7e308;
    tell(out, "across the format", midway(low, 1.7e308) == low);
    let lower = criterion::threshold_of(Height::Lower, 1.0, 2.0);
    tell(out, "the lower of 1 and 2", lower == 1.0);
    let zero = criterion::threshold_of(Height::Lower, -0.0, 2.0);
    tell(out, "the lower of -0 and 2 is -0", 1.0 / zero < 0.0);
}

fn tried(out: &mut Console) {
    number(out, "of 1", criterion::tried_of(1, None));
    number(out, "of 3", criterion::tried_of(3, None));
    number(out, "of 4", criterion::tried_of(4, None));
    number(out, "of 1023", criterion::tried_of(1023, None));
    number(out, "of 1024", criterion::tried_of(1024, None));
    number(out, "of 3, told 2", criterion::tried_of(3, Some(2)));
}

fn run(out: &mut Console) {
    totals(out);
    no_number(out);
    thresholds(out);
    tried(out);
}

fn main() {
    run(&mut Console);
}
