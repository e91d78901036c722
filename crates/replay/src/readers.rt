// Kinds 3 to 12: readers and checks.
ghost use Rattle.std.specs.Prelude.{◌≡◌, length};

use crate::calls::{Call, Columns};
use crate::compared::Verdict;
use crate::kinds::Kind;
use crate::{calls, compared};
use rules::{ErrorTold, Refusal, Reply, Trees};

// The places of the lists, of the root mass and of the room's length.
#[derive(Clone, Copy)]
struct Places {
    values: usize,
    counts: usize,
    listings: usize,
    columns: Columns,
    starts: usize,
    mass: usize,
    targets: usize,
    means: usize,
    room: usize,
}

fn places_of(call: &Call) -> Places {
    let counts = call.after(3);
    let listings = call.after_words(counts);
    let value = call.after_words(listings);
    let columns = call.columns(value);
    let starts = columns.end;
    let mass = call.after_words(starts);
    let targets = mass.saturating_add(1);
    let means = call.after(targets);
    let room = call.after(means);
    Places {
        values: 3,
        counts,
        listings,
        columns,
        starts,
        mass,
        targets,
        means,
        room,
    }
}

// ---- readers that write a room, and checks

fn ask(kind: Kind, call: &Call, p: Places, out: &mut [f64]) -> Reply {
    let shape = call.shape();
    let features = shape.features;
    let values = call.reals(p.values, p.counts);
    let counts = call.words(p.counts, p.listings);
    let table = call.table(p.columns);
    let forest = Trees {
        number: call.number(2),
        starts: call.words(p.starts, p.mass),
        table,
    };
    match kind {
        Kind::Predictions => predict::predict_tree(shape, values, &table, out),
        Kind::ForestMeans => means::forest_means(shape, values, &forest, out),
        Kind::OutOfBagMeans => means::out_of_bag_means(shape, values, counts, &forest, out),
        Kind::Normalised | Kind::ByRootMass => {
            let by = c_types::scale_of(kind == Kind::ByRootMass, calls::entry(call.reals, p.mass));
            importances::tree_importances(features, by, &table, out)
        }
        Kind::ForestImportances => importances::forest_importances(features, &forest, out),
        Kind::TreeCheck => tables::check_tree(features, &table),
        _ => tables::check_forest(features, &forest),
    }
}

// The room's length, where there is nothing after it.
fn lengths<'a>(call: &Call<'a>, p: Places) -> Option<&'a [usize]> {
    let lengths = call.rest(p.room);
    if lengths.len() == 1 {
        Some(lengths)
    } else {
        None
    }
}

// The two checks leave no room.
pub fn replay(kind: Kind, call: &Call, answer: &[usize]) -> Verdict {
    let p = places_of(call);
    let Some(lengths) = lengths(call, p) else {
        return Verdict::Malformed;
    };
    let mut out = [9.0; 64];
    let reply = ask(kind, call, p, compared::lent(lengths, 0, &mut out));
    let told = [c_types::number_of(reply) as usize];
    let check = compared::first(answer, lengths, 1);
    match kind {
        Kind::TreeCheck | Kind::ForestCheck => check.judged(&told),
        _ => check.room(&out).judged(&told),
    }
}

// ---- the error

fn error_told(t: ErrorTold) -> [usize; 3]
    ensures { 3 ≡ length result }
{
    [
        t.number as usize,
        compared::pattern(t.error),
        t.rows as usize,
    ]
}

pub fn replay_error(call: &Call, answer: &[usize]) -> Verdict {
    let p = places_of(call);
    let Some(lengths) = lengths(call, p) else {
        return Verdict::Malformed;
    };
    let reply = errors::out_of_bag_error(
        call.number(0),
        call.reals(p.targets, p.means),
        call.reals(p.means, p.room),
    );
    let told = error_told(ErrorTold::from(reply));
    compared::first(answer, lengths, 3).judged(&told)
}

// ---- the check of listings

pub fn replay_listings(call: &Call, answer: &[usize]) -> Verdict {
    let p = places_of(call);
    let Some(lengths) = lengths(call, p) else {
        return Verdict::Malformed;
    };
    let answered = checks::listing::check_listings(
        call.shape(),
        call.reals(p.values, p.counts),
        call.words(p.listings, p.columns.value),
    );
    let told = compared::told_of(Refusal::from(answered));
    compared::first(answer, lengths, 4).judged(&told)
}
