// What several crates do with numbers and slices: a number as a float, a value read, rooms filled.
#![tactic(auto)]

ghost use Rattle.std.specs.Prelude.{◌≡◌};
ghost use Rattle.rules.specs.Words.{float, filled};
ghost use Rattle.rules.specs.Lent.{cell};
ghost use Rattle.slices.specs.Cells.{Inside};

// ---- numbers

// A whole number as a float: exactly that number.
pub fn float_of(n: u32) -> f64
    ensures { result ≡ float n }
{
    n as f64
}

// ---- values

// The value of row i in feature j. The values lie row after row.
pub fn cell_at(values: &[f64], features: usize, i: usize, j: usize) -> f64
    requires { Inside features i j values.now }
    ensures { result ≡ cell features values.now j i }
{
    values[i * features + j]
}

// ---- rooms filled, the whole of each

// v at every place. The slice's own method asks that cloning cannot fail, which `Copy` alone does not say.
pub fn fill<T: Copy>(s: &mut [T], v: T)
    ensures { s.new ≡ filled v s.old }
{
    for x in s.iter_mut() {
        *x = v;
    }
}
