// A model as a file: how many bytes it takes, written and read.
ghost use Rattle.std.specs.Prelude.{◌≡◌};
ghost use Rattle.rules.specs.Lent.{outcome_of, columns_of};
ghost use Rattle.rules.specs.Table.{table_of};
ghost use Rattle.rules.specs.Model.{model_size, write_model, table_rooms_of, read_model};
ghost use Rattle.rules.specs.Answers.{size_told, model_told, told};

use rules::{ModelTold, SizeTold, Table, TableRoom, Trees};

pub fn tailboardy_model_size(
    features: usize,
    trees: usize,
    starts: &[u32],
    value: &[f64],
    feature: &[u32],
    threshold: &[f64],
    score: &[f64],
    truechild: &[u32],
    falsechild: &[u32],
) -> SizeTold
    ensures { result ≡ size_told (model_size features (table_of trees starts.now
        (columns_of value.now feature.now threshold.now score.now truechild.now falsechild.now))) }
{
    let table = Table {
        value,
        feature,
        threshold,
        score,
        truechild,
        falsechild,
    };
    let forest = Trees {
        number: trees,
        starts,
        table,
    };
    let reply = model_write::model_size(features, &forest);
    SizeTold::from(reply)
}

pub fn tailboardy_write_model(
    features: usize,
    trees: usize,
    starts: &[u32],
    value: &[f64],
    feature: &[u32],
    threshold: &[f64],
    score: &[f64],
    truechild: &[u32],
    falsechild: &[u32],
    file: &mut [u8],
) -> SizeTold
    ensures { outcome_of result file.new
        ≡ told size_told (write_model features (table_of trees starts.now
        (columns_of value.now feature.now threshold.now score.now truechild.now falsechild.now)) file.old) }
{
    let table = Table {
        value,
        feature,
        threshold,
        score,
        truechild,
        falsechild,
    };
    let forest = Trees {
        number: trees,
        starts,
        table,
    };
    let reply = model_write::write_model(features, &forest, file);
    SizeTold::from(reply)
}

pub fn tailboardy_read_model(
    value: &mut [f64],
    feature: &mut [u32],
    threshold: &mut [f64],
    score: &mut [f64],
    truechild: &mut [u32],
    falsechild: &mut [u32],
    starts: &mut [u32],
    file: &[u8],
) -> ModelTold
    ensures { outcome_of result
        (table_rooms_of (columns_of value.new feature.new threshold.new score.new truechild.new falsechild.new) starts.new)
        ≡ told model_told (read_model file.now
        (table_rooms_of (columns_of value.old feature.old threshold.old score.old truechild.old falsechild.old)
        starts.old)) }
{
    let mut room = TableRoom {
        value,
        feature,
        threshold,
        score,
        truechild,
        falsechild,
    };
    let reply = model_read::read_model(&mut room, starts, file);
    ModelTold::from(reply)
}
