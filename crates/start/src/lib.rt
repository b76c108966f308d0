//! A path that is handed over to go on from: its checks.
//! What the function is given and answers stands in specs/Start.antt.
#![tactic(auto)]

ghost use Rattle.std.specs.Prelude.{◌≡◌, List, ℕ};
ghost use Rattle.checks.specs.Checks.{first_unmet};
ghost use Rattle.network_file.specs.File.{network_of};
ghost use Rattle.operations.specs.Operations.{start_checks};
ghost use Rattle.start.specs.Start.{ChartOf, numbered};

use chart::Chart;
use refusals::Refusal;

/// On the chart of a file: refuses by the first check of the start that is not met, of 8, 9, 10, 15 and 13. Of any other chart it says nothing.
pub fn check(chart: &Chart, start: &[u16]) -> Result<(), Refusal>
    ensures { (f : List ℕ) → ChartOf f chart.now.words → first_unmet (start_checks (network_of f) start.now) ≡ numbered result }
{
    if start.is_empty() {
        return Ok(());
    }
    let path = tried::tried(chart, start)?;
    refusals::check(path.is_written(start), Refusal::NotMinimal)
}
