//! The walk over the list of a chart, the minimal paths that have all must rows: the first path, the next behind all that begin alike, and whether a path's steps are legal.
//! Each function is equal to its model in specs/Walk.antt or specs/Climbing.antt, on every input; proofs/Behind.antt and proofs/Climbing.antt say what these are of the list.
#![tactic(auto)]

ghost use Rattle.std.specs.Prelude.{◌≡◌, IfSome};
ghost use Rattle.chart.specs.Chart.{plant_in};
ghost use Rattle.paths.specs.Path.{keys_of, plant_of};
ghost use Rattle.search.specs.Search.{key_of};
ghost use Rattle.walk.specs.Climbing.{climbs_in, legal_by};
ghost use Rattle.walk.specs.Walk.{after_of, first_in, next_of, skip_of};

use chart::Chart;
use paths::Path;
use search::Step;

// The first path behind all that go on from a path by this step, of those with all must rows.
#[tactic(auto, unfolding(crate::specs::Walk::skip_of, crate::specs::Walk::on_of, crate::specs::Walk::beside_of))]
fn skip(chart: &Chart, steps: usize, fresh: u64, path: Path, step: Step) -> Option<Path>
    ensures { IfSome result (λ next. plant_of next ≡ plant_of path) × (next_of result ≡ skip_of chart.now.words (plant_of path) steps fresh (keys_of path) (key_of step)) }
{
    // a must row is not given up
    if chart.is_must(step.row) {
        return None;
    }
    let beside = chart.next_row(step.row);
    if beside != 0 {
        let rest = words::minus(fresh, words::bit(step.node));
        let left = steps.saturating_sub(1);
        let next = path.extended((step.place % 256) as u8, step.node, beside);
        return Some(grow::grown_with(chart, left, rest, next, step.place, step.node));
    }
    if grow::open_past(chart, fresh, path, step.place, step.node) {
        return Some(grow::grown_with(chart, steps, fresh, path, step.place, step.node));
    }
    None
}

// Whether a step leads from the pivot to a fresh node, and comes behind this place and node.
#[tactic(auto, unfolding(crate::specs::Climbing::legal_by))]
fn legal(chart: &Chart, fresh: u64, place: usize, node: u8, pivot: u8, step: Step) -> bool
    ensures { result ≡ legal_by chart.now.words fresh place node pivot (key_of step) }
{
    words::has(fresh, step.node)
        && search::joins(chart, false, step.row, pivot, step.node)
        && (place, node) < (step.place, step.node)
}

/// Whether each step of a path is a legal one of the state that the steps before it lead to, behind the last of them.
pub fn climbs(chart: &Chart, path: Path) -> bool
    ensures { result ≡ climbs_in chart.now.words (plant_of path) (keys_of path) }
{
    let mut fresh = words::minus(chart.nodes(), words::bit(path.nodes[0]));
    let mut place: usize = 0;
    let mut node: u8 = 0;
    for i in 0..path.length() {
        let at = path.pivots[i] as usize;
        // a pivot that is not entered yet
        if i < at {
            return false;
        }
        let step = Step {
            place: at,
            node: path.nodes[i + 1],
            row: path.rows[i] as usize,
        };
        if !legal(chart, fresh, place, node, path.nodes[at], step) {
            return false;
        }
        fresh = words::minus(fresh, words::bit(step.node));
        place = at;
        node = step.node;
    }
    true
}

/// The first path behind all that begin with the first `len` steps of a path, of those with all must rows.
pub fn after(chart: &Chart, path: Path, len: usize) -> Option<Path>
    ensures { IfSome result (λ next. plant_of next ≡ plant_of path) × (next_of result ≡ after_of chart.now.words (plant_of path) (keys_of path) len) }
{
    let width = chart.width();
    let prefix = path.shortened(len);
    let mut fresh = grow::fresh_after(chart.nodes(), prefix);
    for i in (0..prefix.length()).rev() {
        let step = Step {
            place: path.pivot_at(i) as usize,
            node: path.node_at(i),
            row: path.row_at(i) as usize,
        };
        fresh |= words::bit(step.node);
        let next = skip(
            chart,
            width.saturating_sub(i),
            fresh,
            path.shortened(i),
            step,
        );
        if next.is_some() {
            return next;
        }
    }
    None
}

/// The first path of the list.
pub fn first(chart: &Chart) -> Option<Path>
    ensures { IfSome result (λ path. plant_of path ≡ plant_in chart.now.words) × (next_of result ≡ first_in chart.now.words) }
{
    let path = grow::first_path(chart);
    let steps = path.length();
    if steps == chart.width() && grow::musts_met(chart, &path.rows[..steps]) {
        Some(path)
    } else {
        None
    }
}
