// A model as a file: how many bytes it takes, written and read.
ghost use Rattle.std.specs.Prelude.{◌≡◌};
ghost use Rattle.rules.specs.Lent.{outcome_of, columns_of};
ghost use Rattle.rules.specs.Table.{table_of};
ghost use Rattle.rules.specs.Model.{model_size, write_model, table_rooms_of, read_model};
ghost use Rattle.rules.specs.Answers.{size_told, model_told, told};

use rules::{ModelTold, SizeTold};

#[unsafe(no_mangle)]
pub extern "C" fn tailboardy_model_size(
    features: usize,
    trees: usize,
    starts: &[u32],
    value: &[f64],
    feature: &[u32],
    threshold: &[f64],
    score: &[f64],
    truechild: &[u32],
    falsechild: &[u32],
) -> SizeTold
    ensures { result ≡ size_told (model_size features (table_of trees starts.now
        (columns_of value.now feature.now threshold.now score.now truechild.now falsechild.now))) }
{
    exports::models::tailboardy_model_size(
        features, trees, starts, value, feature, threshold, score, truechild, falsechild,
    )
}

#[unsafe(no_mangle)]
pub extern "C" fn tailboardy_write_model(
    features: usize,
    trees: usize,
    starts: &[u32],
    value: &[f64],
    feature: &[u32],
    threshold: &[f64],
    score: &[f64],
    truechild: &[u32],
    falsechild: &[u32],
    file: &mut [u8],
) -> SizeTold
    ensures { outcome_of result file.new
        ≡ told size_told (write_model features (table_of trees starts.now
        (columns_of value.now feature.now threshold.now score.now truechild.now falsechild.now)) file.old) }
{
    exports::models::tailboardy_write_model(
        features, trees, starts, value, feature, threshold, score, truechild, falsechild, file,
    )
}

#[unsafe(no_mangle)]
pub extern "C" fn tailboardy_read_model(
    value: &mut [f64],
    feature: &mut [u32],
    threshold: &mut [f64],
    score: &mut [f64],
    truechild: &mut [u32],
    falsechild: &mut [u32],
    starts: &mut [u32],
    file: &[u8],
) -> ModelTold
    ensures { outcome_of result
        (table_rooms_of (columns_of value.new feature.new threshold.new score.new truechild.new falsechild.new) starts.new)
        ≡ told model_told (read_model file.now
        (table_rooms_of (columns_of value.old feature.old threshold.old score.old truechild.old falsechild.old)
        starts.old)) }
{
    exports::models::tailboardy_read_model(
        value, feature, threshold, score, truechild, falsechild, starts, file,
    )
}
