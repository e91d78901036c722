// What plain numbers say, and answers as plain numbers, in the forms that C has.
ghost use Rattle.std.specs.Prelude.{◌≡◌, Err};
ghost use Rattle.rules.specs.Checks.{numbered};
ghost use Rattle.rules.specs.Answers.{tree_told, forest_told, check_told, error_told, size_told, model_told};
ghost use Rattle.rules.specs.Plain.{splitter_of, height_of, settings_of, tree_settings_of, forest_settings_of, tried_from, tree_numbers, error_numbers};

use crate::{
    Checked, ErrorReply, ErrorTold, FitError, ForestAnswer, ForestSettings, Height, ModelReply,
    ModelTold, Refusal, Report, Settings, SizeReply, SizeTold, Splitter, TreeAnswer, TreeSettings,
    TreeTold, Tried,
};

// ---- what is given

impl From<bool> for Splitter {
    ghost from_gives = { λ random splitter. splitter ≡ splitter_of random };

    fn from(random: bool) -> Self {
        if random {
            Splitter::Random
        } else {
            Splitter::Best
        }
    }
}

impl From<bool> for Height {
    ghost from_gives = { λ lower height. height ≡ height_of lower };

    fn from(lower: bool) -> Self {
        if lower {
            Height::Lower
        } else {
            Height::Midpoint
        }
    }
}

#[tactic(auto, unfolding(crate::specs::Plain::settings_of))]
fn settings_of(
    limited: bool,
    limit: u16,
    leaf: u32,
    split: u32,
    random: bool,
    lower: bool,
) -> Settings
    ensures { result ≡ settings_of limited limit leaf split random lower }
{
    Settings {
        depth: limited.then_some(limit),
        leaf,
        split,
        splitter: Splitter::from(random),
        height: Height::from(lower),
    }
}

impl From<TreeSettings> for Settings {
    ghost from_gives = { λ plain settings. settings ≡ tree_settings_of plain };

    fn from(plain: TreeSettings) -> Self {
        settings_of(
            plain.limited,
            plain.limit,
            plain.leaf,
            plain.split,
            plain.random,
            plain.lower,
        )
    }
}

impl From<ForestSettings> for Settings {
    ghost from_gives = { λ plain settings. settings ≡ forest_settings_of plain };

    fn from(plain: ForestSettings) -> Self {
        settings_of(
            plain.limited,
            plain.limit,
            plain.leaf,
            plain.split,
            plain.random,
            plain.lower,
        )
    }
}

impl ForestSettings {
    // How many features a search tries, if it is said.
    pub fn tried(&self) -> Tried
        ensures { result ≡ tried_from self.now.said self.now.tried }
    {
        self.said.then_some(self.tried)
    }
}

// ---- what is told

// What there is to tell where nothing is refused.
const NO_REFUSAL: Refusal = Refusal {
    number: 0,
    part: 0,
    place: 0,
    row: 0,
};

const NO_REPORT: Report = Report {
    nodes: 0,
    depth: 0,
    mass: 0.0,
    searches: 0,
    words: 0,
    thresholds: 0,
};

// A bad draw is told as refusal 7.
impl From<FitError> for Refusal {
    ghost from_gives = { λ error told. told ≡ forest_told (Err error) };

    fn from(error: FitError) -> Self {
        match error {
            FitError::Refused(refusal) => refusal,
            FitError::BadDraw(place) => Refusal {
                number: 7,
                part: place.tree,
                place: place.search,
                row: 0,
            },
        }
    }
}

impl From<ForestAnswer> for Refusal {
    ghost from_gives = { λ answer told. told ≡ forest_told answer };

    fn from(answer: ForestAnswer) -> Self {
        match answer {
            Ok(()) => NO_REFUSAL,
            Err(error) => Refusal::from(error),
        }
    }
}

impl From<Checked> for Refusal {
    ghost from_gives = { λ answer told. told ≡ check_told answer };

    fn from(answer: Checked) -> Self {
        match answer {
            Ok(()) => NO_REFUSAL,
            Err(refusal) => refusal,
        }
    }
}

fn tree_told(refusal: Refusal, report: Report) -> TreeTold
    ensures { tree_numbers result ≡ record { refusal = refusal; report = report } }
{
    TreeTold {
        number: refusal.number,
        part: refusal.part,
        place: refusal.place,
        row: refusal.row,
        nodes: report.nodes,
        depth: report.depth,
        mass: report.mass,
        searches: report.searches,
        words: report.words,
        thresholds: report.thresholds,
    }
}

impl From<TreeAnswer> for TreeTold {
    ghost from_gives = { λ answer told. tree_numbers told ≡ tree_told answer };

    fn from(answer: TreeAnswer) -> Self {
        match answer {
            Ok(report) => tree_told(NO_REFUSAL, report),
            Err(error) => tree_told(Refusal::from(error), NO_REPORT),
        }
    }
}

impl From<ErrorReply> for ErrorTold {
    ghost from_gives = { λ reply told. error_numbers told ≡ error_told reply };

    fn from(reply: ErrorReply) -> Self {
        match reply {
            Ok(figure) => ErrorTold {
                number: 0,
                error: figure.error,
                rows: figure.rows,
            },
            Err(number) => ErrorTold {
                number,
                error: 0.0,
                rows: 0,
            },
        }
    }
}

impl From<SizeReply> for SizeTold {
    ghost from_gives = { λ reply told. told ≡ size_told reply };

    fn from(reply: SizeReply) -> Self {
        match reply {
            Ok(bytes) => SizeTold { number: 0, bytes },
            Err(number) => SizeTold { number, bytes: 0 },
        }
    }
}

impl From<ModelReply> for ModelTold {
    ghost from_gives = { λ reply told. told ≡ model_told reply };

    fn from(reply: ModelReply) -> Self {
        match reply {
            Ok(sizes) => ModelTold {
                number: 0,
                place: 0,
                features: sizes.features,
                trees: sizes.trees,
                nodes: sizes.nodes,
            },
            Err(misread) => ModelTold {
                number: misread.number,
                place: misread.place,
                features: 0,
                trees: 0,
                nodes: 0,
            },
        }
    }
}
