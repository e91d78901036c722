// A column's stretch: the rows of a node in the order of a feature's values, and what is read of them.
ghost use Rattle.std.specs.Prelude.{◌≡◌, ◌*◌, ◌<◌, length, get_or};
ghost use Rattle.rules.specs.Lent.{cell};
ghost use Rattle.slices.specs.Cells.{Inside};
ghost use Rattle.search.specs.Flat.{tables_in, Shaped, Below, Floats, element_of, cell_of};

use criterion::mass_of;
use rules::{Input, Shape};

// What a sweep along a feature learns of a row.
#[derive(Clone, Copy)]
pub struct Cell {
    pub count: u32,
    pub mass: f64,
    pub target: f64,
    pub value: f64,
}

// The values of a column's stretch: its rows are among those of the input, and its feature among the features, so that each row's value can be read.
#[derive(Clone, Copy)]
pub struct Readable<'a> {
    pub input: Input<'a>,
    pub rows: &'a [u32],
    pub shape: Shape,
    pub feature: u32,
    pub ghost wide: { length input.values.now ≡ shape.rows * shape.features },
    pub ghost below: { Below shape.rows rows.now },
    pub ghost one: { feature < shape.features },
}

impl Readable<'_> {
    // The value of the row at place i.
    pub fn value(&self, i: usize) -> f64
        requires { i < length self.now.rows.now }
        ensures value { result ≡ cell self.now.shape.features self.now.input.values.now self.now.feature (get_or self.now.rows.now i 0) }
        ensures floats { Floats self.now.input.values.now }
    {
        let r = self.rows[i] as usize;
        value_at(
            self.input.values,
            self.shape.features,
            r,
            self.feature as usize,
        )
    }
}

// Its rows are among those of the input, its feature among the features, and the tables are as long as rows and features say.
#[derive(Clone, Copy)]
pub struct Stretch<'a> {
    pub input: Input<'a>,
    pub rows: &'a [u32],
    pub shape: Shape,
    pub feature: u32,
    pub ghost shaped: { Shaped shape.rows shape.features (tables_in input) },
    pub ghost below: { Below shape.rows rows.now },
    pub ghost one: { feature < shape.features },
}

impl Stretch<'_> {
    // The value of the row at place i.
    pub fn value(&self, i: usize) -> f64
        requires { i < length self.now.rows.now }
        ensures value { result ≡ cell self.now.shape.features self.now.input.values.now self.now.feature (get_or self.now.rows.now i 0) }
        ensures floats { Floats self.now.input.values.now }
    {
        self.readable().value(i)
    }

    // What a sweep learns of row r.
    pub fn cell(&self, r: usize) -> Cell
        requires { r < self.now.shape.rows }
        ensures { result ≡ cell_of self.now.feature (element_of self.now.shape.features (tables_in self.now.input) r) }
    {
        cell_of(&self.input, self.shape, self.feature as usize, r)
    }
}

// The value of row r in feature j. That the entries have 64 bits is known only of a slice that is passed, so that it is said here.
fn value_at(values: &[f64], features: usize, r: usize, j: usize) -> f64
    requires { Inside features r j values.now }
    ensures value { result ≡ cell features values.now j r }
    ensures floats { Floats values.now }
{
    slices::cell_at(values, features, r, j)
}

// What a sweep along feature j learns of row r.
pub fn cell_of(input: &Input, shape: Shape, j: usize, r: usize) -> Cell
    requires { Shaped shape.rows shape.features (tables_in input.now) × (r < shape.rows) × (j < shape.features) }
    ensures { result ≡ cell_of j (element_of shape.features (tables_in input.now) r) }
{
    Cell {
        count: input.counts[r],
        mass: mass_of(input.weights, input.counts, r),
        target: input.targets[r],
        value: slices::cell_at(input.values, shape.features, r, j),
    }
}
