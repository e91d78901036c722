// What is told of a tree that was grown, or of its bad draw.
#![tactic(auto)]

ghost use Rattle.std.specs.Prelude.{◌≡◌};
ghost use Rattle.tree_report.specs.Report.{ReportAsks, report_at, TellAsks, told, bad_draw};

use node_growth::BadSearch;
use rules::{FitError, Place, Report, TreeAnswer};
use tree_growth::At;

// A tree that is grown, or the search at which a bad draw was met.
pub type Planted = Result<Report, u32>;

// Of each tape, what was used is at most the tape.
fn report_of(at: At, mass: f64, words: usize, thresholds: usize) -> Report
    requires { ReportAsks words thresholds at }
    ensures { result ≡ report_at mass words thresholds at }
{
    let d = at.stand.drawn;
    Report {
        nodes: at.nodes,
        depth: at.depth,
        mass,
        searches: d.searches as u32,
        words: d.words.min(words) as u32,
        thresholds: d.thresholds.min(thresholds) as u32,
    }
}

// What a growth answers: the search of its bad draw, or the report of its tree. `words` and `thresholds` are how long the tapes are.
pub fn tell(r: Result<At, BadSearch>, mass: f64, words: usize, thresholds: usize) -> Planted
    requires { TellAsks words thresholds r }
    ensures { result ≡ told mass words thresholds r }
{
    match r {
        Ok(at) => Ok(report_of(at, mass, words, thresholds)),
        Err(bad) => Err(bad.search as u32),
    }
}

// The bad draw of a fit of one tree, which is tree 0.
pub fn bad_draw(search: u32) -> TreeAnswer
    ensures { result ≡ bad_draw search }
{
    Err(FitError::BadDraw(Place { tree: 0, search }))
}
