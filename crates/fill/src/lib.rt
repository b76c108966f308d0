//! Filling a page with the trees of a chart's list, as many as remain and fit.
//! What the functions are given and answer stands in specs/Walkable.antt; of any other chart they say nothing, but end and stay inside the page.
#![tactic(auto)]

ghost use Rattle.std.specs.Prelude.{◌≡◌, List, ℕ};
ghost use Rattle.chart.specs.Chart.{list_in, plant_in, width_in};
ghost use Rattle.checks.specs.Checks.{answered};
ghost use Rattle.pages.proofs.TreePages.{Starts};
ghost use Rattle.pages.specs.Pages.{rest_after};
ghost use Rattle.paths.specs.Path.{keys_of, plant_of};
ghost use Rattle.trace.specs.Trace.{traced_in};
ghost use Rattle.fill.specs.Walkable.{Begins, Walkable, filled_by, filled_of};

use chart::Chart;
use paths::Path;

/// How many trees were written, and whether a tree follows.
#[derive(Clone, Copy, Debug, PartialEq, Eq)]
pub struct Filled {
    pub count: usize,
    pub more: bool,
}

// What comes first behind the start, with its path; the first tree of all where the start is empty.
fn following(chart: &Chart, start: &[u16], path: Path) -> Option<Path>
    ensures { let c = chart.now.words in Walkable c → Starts (list_in c) start.now → plant_of path ≡ plant_in c
        → keys_of path ≡ traced_in c start.now → Begins c start.now result }
{
    if 0 < start.len() {
        return walk::after(chart, path, chart.width());
    }
    walk::first(chart)
}

/// Fills the page with trees of the chart's list, as many as remain and fit, from the one that comes first behind a start on.
/// Each is read from its places in the page to find the next; its nodes, its pivots' places and their sets are kept in arrays from tree to tree.
pub fn fill_from(chart: &Chart, page: &mut [u16], next: Option<Path>) -> Filled
    ensures { (start : List ℕ) → let c = chart.now.words in Walkable c → Starts (list_in c) start → Begins c start next
        → record { outcome = answered (filled_of result); buffers = page.new } ≡ filled_by (width_in c) page.old (rest_after (list_in c) start) }
{
    let width = chart.width();
    let none = Filled {
        count: 0,
        more: false,
    };
    // trees of no row would never fill the page, and a path has at most 31
    if width == 0 || 31 < width {
        return none;
    }
    let Some(tree) = next else {
        return none;
    };
    let mut entered = tree.nodes;
    let mut pivots = tree.pivots;
    let mut rows = tree.rows;
    let mut sets = [0u64; 32];
    regrow::gather(&entered[..width + 1], &mut sets);
    let mut at: usize = 0;
    let mut count: usize = 0;
    while width <= page.len() - at {
        let from = at;
        at += width;
        count += 1;
        copies::copy(page, from, &rows[..width], width);
        // called from this place alone, so that the compiler takes it in here
        let last = &page[from..at];
        let Some(turn) = trail::next_turn(chart, &entered, &pivots, &sets, last) else {
            return Filled { count, more: false };
        };
        regrow::take_turn(
            chart,
            &mut entered,
            &mut pivots,
            &mut sets,
            &mut rows[..width],
            turn,
        );
    }
    Filled { count, more: true }
}

/// Fills the page with the trees of the chart's list behind the start, as many as remain and fit.
pub fn fill(chart: &Chart, page: &mut [u16], start: &[u16]) -> Filled
    ensures { let c = chart.now.words in Walkable c → Starts (list_in c) start.now
        → record { outcome = answered (filled_of result); buffers = page.new } ≡ filled_by (width_in c) page.old (rest_after (list_in c) start.now) }
{
    let path = trace::trace(chart, start);
    let next = following(chart, start, path);
    fill_from(chart, page, next)
}
