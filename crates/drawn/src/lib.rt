//! Rows drawn in a network file: whether they are a spanning tree of it that keeps the rows' states, and the tree's minimal path.
//! The file is charted once, and the rows are tried in its chart.
#![tactic(auto)]

ghost use Rattle.std.specs.Prelude.{◌≡◌};
ghost use Rattle.tried.specs.Answers.{drawn_of};
ghost use Rattle.drawn.specs.Answers.{drawn_call};

use chart::Chart;
use paths::Path;
use refusals::Refusal;

/// The minimal path of rows drawn in any sequence, behind Open's checks and then 8, 9, 10 and 15.
pub fn drawn(file: &[u8], rows: &[u16]) -> Result<Path, Refusal>
    ensures { drawn_of result ≡ drawn_call file.now rows.now }
{
    network::open(file)?;
    let mut chart = Chart::empty();
    charting::of_file(file, &mut chart);
    tried::tried(&chart, rows)
}
