//! Open, and then check 12: whether the network has a tree, with all must rows and no barred row.
//! There is one exactly if the list of its chart has a first path.
#![tactic(auto)]

ghost use Rattle.std.specs.Prelude.{◌≡◌};
ghost use Rattle.std.proofs.Math.Option.{none};
ghost use Rattle.checks.specs.Checks.{first_unmet};
ghost use Rattle.chart.specs.Chart.{Blank, file_chart_on};
ghost use Rattle.network.specs.Answers.{opened_of};
ghost use Rattle.network_file.specs.File.{file_checks};
ghost use Rattle.listed.specs.Listed.{listed_call};

use chart::Chart;
use fields::Header;
use refusals::{Refusal, check};

/// Open's checks, then 12; the sizes of a file whose network has a tree. An empty chart becomes that of the file.
pub fn listed(file: &[u8], chart: &mut Chart) -> Result<Header, Refusal>
    ensures { (Blank chart.old.words → opened_of result ≡ listed_call file.now)
        × (first_unmet (file_checks file.now) ≡ none → chart.new.words ≡ file_chart_on file.now chart.old.words) }
{
    let header = network::open(file)?;
    charting::of_file(file, chart);
    check(walk::first(chart).is_some(), Refusal::NoTree)?;
    Ok(header)
}
