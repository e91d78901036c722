// The fits.
ghost use Rattle.std.specs.Prelude.{◌≡◌};
ghost use Rattle.rules.specs.Lent.{waiting_room, given_of, columns_of, behind_of, reports_of, work_of, tree_rooms_of, forest_rooms_of, outcome_of};
ghost use Rattle.rules.specs.Answers.{tree_told, forest_told, told};
ghost use Rattle.rules.specs.Fit.{fit_tree, tree_call};
ghost use Rattle.rules.specs.Forest.{fit_forest, forest_call};
ghost use Rattle.rules.specs.Plain.{tree_settings_of, forest_settings_of, tried_from, tree_numbers};

use rules::{
    ForestSettings, Input, NodeRoom, Refusal, ReportRoom, Settings, Shape, TapeStarts, Tapes,
    TreeSettings, TreeTold, WorkRoom,
};

pub fn tailboardy_fit_tree(
    value: &mut [f64],
    feature: &mut [u32],
    threshold: &mut [f64],
    score: &mut [f64],
    truechild: &mut [u32],
    falsechild: &mut [u32],
    nodecount: &mut [u32],
    nodemass: &mut [f64],
    order: &mut [u32],
    scratch: &mut [u32],
    flags: &mut [bool],
    wholes: &mut [[u32; 6]],
    reals: &mut [[f64; 3]],
    values: &[f64],
    targets: &[f64],
    weights: &[f64],
    counts: &[u32],
    listings: &[u32],
    words: &[u32],
    thresholds: &[f64],
    rows: usize,
    features: usize,
    plain: TreeSettings,
) -> TreeTold
    ensures { outcome_of (tree_numbers result) (tree_rooms_of
        (columns_of value.new feature.new threshold.new score.new truechild.new falsechild.new)
        (behind_of nodecount.new nodemass.new)
        (work_of order.new scratch.new flags.new wholes.new reals.new))
        ≡ told tree_told (fit_tree waiting_room
        (tree_call (record { rows = rows; features = features }) (tree_settings_of plain) plain.tried
        (given_of values.now targets.now weights.now counts.now listings.now) words.now thresholds.now)
        (tree_rooms_of
        (columns_of value.old feature.old threshold.old score.old truechild.old falsechild.old)
        (behind_of nodecount.old nodemass.old)
        (work_of order.old scratch.old flags.old wholes.old reals.old))) }
{
    let mut nodes = NodeRoom {
        value,
        feature,
        threshold,
        score,
        truechild,
        falsechild,
        count: nodecount,
        mass: nodemass,
    };
    let mut work = WorkRoom {
        order,
        scratch,
        flags,
        wholes,
        reals,
    };
    let input = Input {
        values,
        targets,
        weights,
        counts,
        listings,
    };
    let tapes = Tapes { words, thresholds };
    let answer = tree_fit::fit_tree(
        &mut nodes,
        &mut work,
        &input,
        &tapes,
        Shape { rows, features },
        Settings::from(plain),
        plain.tried,
    );
    TreeTold::from(answer)
}

pub fn tailboardy_fit_forest(
    value: &mut [f64],
    feature: &mut [u32],
    threshold: &mut [f64],
    score: &mut [f64],
    truechild: &mut [u32],
    falsechild: &mut [u32],
    nodecount: &mut [u32],
    nodemass: &mut [f64],
    starts: &mut [u32],
    nodes: &mut [u32],
    depth: &mut [u32],
    mass: &mut [f64],
    searches: &mut [u32],
    wordsused: &mut [u32],
    thresholdsused: &mut [u32],
    order: &mut [u32],
    scratch: &mut [u32],
    flags: &mut [bool],
    wholes: &mut [[u32; 6]],
    reals: &mut [[f64; 3]],
    values: &[f64],
    targets: &[f64],
    weights: &[f64],
    counts: &[u32],
    listings: &[u32],
    words: &[u32],
    thresholds: &[f64],
    wordstarts: &[usize],
    thresholdstarts: &[usize],
    rows: usize,
    features: usize,
    trees: usize,
    plain: ForestSettings,
) -> Refusal
    ensures { outcome_of result (forest_rooms_of
        (columns_of value.new feature.new threshold.new score.new truechild.new falsechild.new)
        (behind_of nodecount.new nodemass.new)
        starts.new
        (reports_of nodes.new depth.new mass.new searches.new wordsused.new thresholdsused.new)
        (work_of order.new scratch.new flags.new wholes.new reals.new))
        ≡ told forest_told (fit_forest waiting_room
        (forest_call (record { rows = rows; features = features }) trees (forest_settings_of plain) (tried_from plain.said plain.tried)
        (given_of values.now targets.now weights.now counts.now listings.now)
        words.now thresholds.now wordstarts.now thresholdstarts.now)
        (forest_rooms_of
        (columns_of value.old feature.old threshold.old score.old truechild.old falsechild.old)
        (behind_of nodecount.old nodemass.old)
        starts.old
        (reports_of nodes.old depth.old mass.old searches.old wordsused.old thresholdsused.old)
        (work_of order.old scratch.old flags.old wholes.old reals.old))) }
{
    let mut room = NodeRoom {
        value,
        feature,
        threshold,
        score,
        truechild,
        falsechild,
        count: nodecount,
        mass: nodemass,
    };
    let mut work = WorkRoom {
        order,
        scratch,
        flags,
        wholes,
        reals,
    };
    let input = Input {
        values,
        targets,
        weights,
        counts,
        listings,
    };
    let tapes = Tapes { words, thresholds };
    let parts = TapeStarts {
        words: wordstarts,
        thresholds: thresholdstarts,
    };
    let mut reports = ReportRoom {
        nodes,
        depth,
        mass,
        searches,
        words: wordsused,
        thresholds: thresholdsused,
    };
    let answer = forest_fit::fit_forest(
        &mut room,
        starts,
        &mut reports,
        &mut work,
        &input,
        &tapes,
        &parts,
        Shape { rows, features },
        trees,
        Settings::from(plain),
        plain.tried(),
    );
    Refusal::from(answer)
}
