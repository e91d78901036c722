// The kinds of cases, by the number that a line begins with.
use std::fmt;

#[derive(Clone, Copy, PartialEq, Eq)]
pub enum Kind {
    TreeFit = 1,
    ForestFit = 2,
    Predictions = 3,
    ForestMeans = 4,
    OutOfBagMeans = 5,
    Normalised = 6,
    ByRootMass = 7,
    ForestImportances = 8,
    OutOfBagError = 9,
    Listings = 10,
    TreeCheck = 11,
    ForestCheck = 12,
    NodeRead = 13,
}

// In the order in which they are told.
pub const KINDS: [Kind; 13] = [
    Kind::TreeFit,
    Kind::ForestFit,
    Kind::Predictions,
    Kind::ForestMeans,
    Kind::OutOfBagMeans,
    Kind::Normalised,
    Kind::ByRootMass,
    Kind::ForestImportances,
    Kind::OutOfBagError,
    Kind::Listings,
    Kind::TreeCheck,
    Kind::ForestCheck,
    Kind::NodeRead,
];

// A number that is no kind's.
#[derive(Clone, Copy)]
pub struct NoKind;

impl TryFrom<usize> for Kind {
    type Error = NoKind;

    fn try_from(number: usize) -> Result<Self, NoKind> {
        KINDS
            .into_iter()
            .find(|kind| *kind as usize == number)
            .ok_or(NoKind)
    }
}

// What its line of the tally begins with.
impl fmt::Display for Kind {
    fn fmt<W: fmt::Write>(&self, f: &mut fmt::Formatter<W>) -> fmt::Result {
        f.write_str(match self {
            Kind::TreeFit => "fits of one tree: ",
            Kind::ForestFit => "fits of a forest: ",
            Kind::Predictions => "predictions: ",
            Kind::ForestMeans => "means of a forest: ",
            Kind::OutOfBagMeans => "means out of bag: ",
            Kind::Normalised => "importances of a tree, normalised: ",
            Kind::ByRootMass => "importances of a tree, by the root mass: ",
            Kind::ForestImportances => "importances of a forest: ",
            Kind::OutOfBagError => "errors out of bag: ",
            Kind::Listings => "checks of listings: ",
            Kind::TreeCheck => "checks of a tree's table: ",
            Kind::ForestCheck => "checks of a forest's table: ",
            Kind::NodeRead => "nodes read out: ",
        })
    }
}
