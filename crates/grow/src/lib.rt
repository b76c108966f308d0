//! Growing a path over a chart by first steps, so that all must rows stay in reach, whether a step can be skipped, and whether rows have all must rows.
//! Each function is equal to its model in specs/Grow.antt or specs/Musts.antt.
#![tactic(auto)]

ghost use Rattle.std.specs.Prelude.{◌≡◌};
ghost use Rattle.lists.specs.Lists.{has_all, member};
ghost use Rattle.paths.specs.Path.{entered_by, keys_of, plant_of};
ghost use Rattle.chart.specs.Chart.{musts_in, plant_in};
ghost use Rattle.graph.specs.Paths.{follows};
ghost use Rattle.search.specs.Search.{found_of, key_of};
ghost use Rattle.grow.specs.Grow.{fresh_after, open_past};
ghost use Rattle.grow.specs.Musts.{accepted_of, claiming_of, earlier_of, first_of, grow_with, musts_met};

use chart::Chart;
use paths::Path;
use search::Step;

// The nodes entered by a path, in the order of their places.
fn entered(path: &Path) -> &[u8]
    ensures { result.now ≡ entered_by (plant_of path.now) (keys_of path.now) }
{
    &path.nodes[..path.length() + 1]
}

/// The nodes but the entered ones of a path.
pub fn fresh_after(nodes: u64, path: Path) -> u64
    ensures { result ≡ fresh_after nodes (entered_by (plant_of path) (keys_of path)) }
{
    let mut word = nodes;
    for node in entered(&path) {
        word = words::minus(word, words::bit(*node));
    }
    word
}

/// Whether the node is still reached from the bound on.
#[tactic(auto, using(spread::proofs::Spreads::spread_start), unfolding(crate::specs::Grow::open_past))]
pub fn open_past(chart: &Chart, fresh: u64, path: Path, place: usize, node: u8) -> bool
    ensures { result ≡ open_past chart.now.words (plant_of path) fresh (keys_of path) place node }
{
    let seeds = spread::seeds(chart, false, fresh, entered(&path), place, node);
    // the spread keeps the seeds
    words::has(seeds, node) || words::has(spread::spread(chart, false, fresh, seeds), node)
}

// Whether the step a comes before the step b, by place and node.
fn precedes(a: Step, b: Step) -> bool
    ensures { result ≡ follows (key_of a) (key_of b) }
{
    (a.place, a.node) < (b.place, b.node)
}

// Of two steps that may be missing, the one that comes first.
fn earlier(a: Option<Step>, b: Option<Step>) -> Option<Step>
    ensures { found_of result ≡ earlier_of (found_of a) (found_of b) }
{
    let (Some(first), Some(second)) = (a, b) else {
        return a.or(b);
    };
    if precedes(second, first) { b } else { a }
}

// The first step by any row to a node that must rows do not lead to, or by a must row. It is compiled on its own, so that what calls it stays small.
#[tactic(auto, unfolding(crate::specs::Musts::claiming_of, crate::specs::Musts::claimed_of))]
#[inline(never)]
fn claiming(chart: &Chart, fresh: u64, entered: &[u8], place: usize, node: u8) -> Option<Step>
    ensures { found_of result ≡ claiming_of chart.now.words fresh entered.now place node }
{
    let seeds = spread::seeds(chart, true, fresh, entered, place, node);
    let claimed = spread::spread(chart, true, fresh, seeds);
    let unclaimed = words::minus(fresh, claimed);
    let any = search::first_step(chart, false, unclaimed, entered, place, node);
    let must = search::first_step(chart, true, fresh, entered, place, node);
    earlier(any, must)
}

/// The first step, of the state with these nodes entered and this bound, by a must row, or by any row to a node that must rows do not lead to.
#[tactic(auto, unfolding(crate::specs::Musts::accepted_of, spread::specs::Spread::open_at))]
#[inline(always)]
pub fn accepted(chart: &Chart, fresh: u64, entered: &[u8], place: usize, node: u8) -> Option<Step>
    ensures { found_of result ≡ accepted_of chart.now.words fresh entered.now place node }
{
    // no must row leads to a fresh node: none is claimed
    if spread::open_at(chart, true, fresh, 0) == 0 {
        return search::first_step(chart, false, fresh, entered, place, node);
    }
    claiming(chart, fresh, entered, place, node)
}

/// A path with at most so many accepted steps more, from a bound on.
pub fn grown_with(
    chart: &Chart,
    steps: usize,
    mut fresh: u64,
    mut path: Path,
    mut place: usize,
    mut node: u8,
) -> Path
    ensures { (plant_of result ≡ plant_of path) × (keys_of result ≡ grow_with chart.now.words (plant_of path) steps fresh (keys_of path) place node) }
{
    for _ in 0..steps {
        let Some(step) = accepted(chart, fresh, entered(&path), place, node) else {
            break;
        };
        fresh = words::minus(fresh, words::bit(step.node));
        path = path.extended(
            (step.place % 256) as u8,
            step.node,
            (step.row % 65536) as u16,
        );
        place = step.place;
        node = step.node;
    }
    path
}

/// The first path of all with all must rows, from the plant on.
pub fn first_path(chart: &Chart) -> Path
    ensures { (plant_of result ≡ plant_in chart.now.words) × (keys_of result ≡ first_of chart.now.words) }
{
    let start = Path::start(chart.plant());
    let fresh = fresh_after(chart.nodes(), start);
    grown_with(chart, chart.width(), fresh, start, 0, 0)
}

// Whether a row is among the rows.
fn among(rows: &[u16], row: usize) -> bool
    ensures { result ≡ member row rows.now }
{
    rows.iter().any(|r| usize::from(*r) == row)
}

// Whether all must rows are among the rows.
fn musts_dug(chart: &Chart, rows: &[u16]) -> bool
    ensures { result ≡ has_all (musts_in chart.now.words) rows.now }
{
    (0..chart.row_count()).all(|row| !chart.is_must(row) || among(rows, row))
}

/// Whether all must rows are among the rows. Where no node is at the end of a must row there is none, and no row is looked at.
pub fn musts_met(chart: &Chart, rows: &[u16]) -> bool
    ensures { result ≡ musts_met chart.now.words rows.now }
{
    chart.near(true, 0) == 0 || musts_dug(chart, rows)
}
