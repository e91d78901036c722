// The predictions of one tree.
#![tactic(auto)]

ghost use Rattle.std.specs.Prelude.{◌≡◌, ◌+◌, ◌*◌, ◌≤◌, ◌++◌, length, take};
ghost use Rattle.rules.specs.Lent.{outcome_of};
ghost use Rattle.rules.specs.Slices.{columns_in};
ghost use Rattle.rules.specs.Checks.{first_failed, replies};
ghost use Rattle.rules.specs.Reading.{predict_tests, predict_tree};
ghost use Rattle.predict.specs.Front.{Predictable, foretold};

use rules::{Reply, Shape, Table};

// ---- row by row

// Six values from place i on; by places: what `copy_from_slice` reads as pairs has just been written one by one, and for a tree of few nodes the wait takes longer than its walks.
fn put_six(out: &mut [f64], i: usize, six: [f64; 6])
    requires room { i + 6 ≤ length out.old }
    requires all { length six ≡ 6 }
    ensures { take (i + 6) out.new ≡ take i out.old ++ six }
{
    for k in 0..6 {
        out[i + k] = six[k];
    }
}

// So many times six rows, from the first on, six at a time.
fn predict_sixes(out: &mut [f64], sixes: usize, features: usize, values: &[f64], table: &Table)
    requires lent { Predictable features values.now (columns_in table.now) out.old }
    requires few { 6 * sixes ≤ length out.old }
    ensures { take (6 * sixes) out.new ≡ foretold features values.now (columns_in table.now) (6 * sixes) }
{
    let n = table.len();
    for b in 0..sixes {
        let i = 6 * b;
        let six = walks::six_values(i, features, 0, n, values, table);
        put_six(out, i, six);
    }
}

// The rows from the first that is left on, one at a time.
fn predict_rest(out: &mut [f64], first: usize, features: usize, values: &[f64], table: &Table)
    requires lent { Predictable features values.now (columns_in table.now) out.old }
    requires few { first ≤ length out.old }
    requires done { take first out.old ≡ foretold features values.now (columns_in table.now) first }
    ensures { out.new ≡ foretold features values.now (columns_in table.now) (length out.old) }
{
    let n = table.len();
    for i in first..out.len() {
        out[i] = walks::row_value(i, features, 0, n, values, table);
    }
}

// Six at a time as long as there are six.
fn predict_rows(out: &mut [f64], features: usize, values: &[f64], table: &Table)
    requires { Predictable features values.now (columns_in table.now) out.old }
    ensures { out.new ≡ foretold features values.now (columns_in table.now) (length out.old) }
{
    let sixes = out.len() / 6;
    predict_sixes(out, sixes, features, values, table);
    predict_rest(out, 6 * sixes, features, values, table);
}

// Refusals 1, 2, 6 and 8.
#[tactic(auto, unfolding(rules::specs::Reading::predict_tests, rules::specs::Table::tree_in, rules::specs::Checks::checked, rules::specs::Checks::replies))]
fn check_predict(shape: Shape, values: &[f64], table: &Table, out: &[f64]) -> Reply
    ensures { result ≡ replies (first_failed (predict_tests shape values.now (columns_in table.now) out.now)) }
{
    if !checks::shape_in(shape) {
        return Err(1);
    }
    if !checks::values_long(shape, values) {
        return Err(2);
    }
    if out.len() != shape.rows {
        return Err(6);
    }
    if !tables::tree_good(shape.features, 0, table.len(), table) {
        return Err(8);
    }
    Ok(())
}

// Each row's leaf value: refusals 1, 2, 6 and 8.
pub fn predict_tree(shape: Shape, values: &[f64], table: &Table, out: &mut [f64]) -> Reply
    ensures { outcome_of result out.new ≡ predict_tree shape values.now (columns_in table.now) out.old }
{
    check_predict(shape, values, table, out)?;
    predict_rows(out, shape.features, values, table);
    Ok(())
}
