//! Page: the next trees of the list, as many as remain and fit.
//! What the functions below `page` are given is the chart of a file (crate start); what they answer stands in specs/Beginning.antt.
#![tactic(auto)]

ghost use Rattle.std.specs.Prelude.{◌≡◌, true, List, ℕ};
ghost use Rattle.lists.proofs.Members.{◌∈◌};
ghost use Rattle.chart.proofs.Charts.{Charts};
ghost use Rattle.chart.specs.Chart.{list_in, plant_in};
ghost use Rattle.grow.proofs.Leads.{MustsLead};
ghost use Rattle.operations.specs.Operations.{page_call};
ghost use Rattle.paths.specs.Path.{keys_of, plant_of};
ghost use Rattle.start.specs.Start.{ChartOf};
ghost use Rattle.trace.specs.Trace.{traced_in};
ghost use Rattle.page.specs.Answers.{paged_of};
ghost use Rattle.page.specs.Beginning.{Beginning};

use chart::Chart;
use fill::Filled;
use paths::Path;
use refusals::{Refusal, check};

// Whether the start, with its path, is seen to be a tree of the list: its steps are legal, and it has all nodes and all must rows.
fn seen_listed(chart: &Chart, start: &[u16], path: Path) -> bool
    ensures { let c = chart.now.words in Charts c → MustsLead c → plant_of path ≡ plant_in c → keys_of path ≡ traced_in c start.now
        → result ≡ true → start.now ∈ list_in c }
{
    start.len() == chart.width() && walk::climbs(chart, path) && grow::musts_met(chart, start)
}

// What a call on a network with a tree begins with: how the start's checks end, and what comes first behind it.
#[derive(Clone, Copy)]
struct Begun {
    checked: Result<(), Refusal>,
    next: Option<Path>,
}

// Tries the start and finds what comes behind it, if the network has a tree. A start that is seen to be a tree of the list shows that, and all its checks are met.
fn begin(chart: &Chart, start: &[u16]) -> Result<Begun, Refusal>
    ensures { (f : List ℕ) → ChartOf f chart.now.words → Beginning f chart.now.words start.now result }
{
    if start.is_empty() {
        let next = walk::first(chart);
        check(next.is_some(), Refusal::NoTree)?;
        return Ok(Begun {
            checked: Ok(()),
            next,
        });
    }
    let path = trace::trace(chart, start);
    let next = walk::after(chart, path, chart.width());
    if seen_listed(chart, start, path) {
        return Ok(Begun {
            checked: Ok(()),
            next,
        });
    }
    // what is wrong with it is asked in the order of the checks
    check(walk::first(chart).is_some(), Refusal::NoTree)?;
    Ok(Begun {
        checked: start::check(chart, start),
        next,
    })
}

/// Page: the trees behind the start path, or from the first on where it is empty, n - 1 places each.
pub fn page(file: &[u8], page: &mut [u16], start: &[u16]) -> Result<Filled, Refusal>
    ensures { record { outcome = paged_of result; buffers = page.new } ≡ page_call file.now page.old start.now }
{
    network::open(file)?;
    let mut chart = Chart::empty();
    charting::of_file(file, &mut chart);
    let begun = begin(&chart, start)?;
    check(chart.width() <= page.len(), Refusal::ShortBuffer)?;
    begun.checked?;
    Ok(fill::fill_from(&chart, page, begun.next))
}
