//! The first legal step of a growing path: a nested search over pivot places, nodes and rows, left at the first legal step.
#![tactic(auto)]

ghost use Rattle.std.specs.Prelude.{◌≡◌};
ghost use Rattle.chart.specs.Chart.{firsts_in, seconds_in};
ghost use Rattle.search.specs.Search.{found_of, joins_at, step_in};

use chart::Chart;

/// A step of a path: from the node at a place to a node, by a row.
#[derive(Clone, Copy, Debug, PartialEq, Eq)]
pub struct Step {
    pub place: usize,
    pub node: u8,
    pub row: usize,
}

/// Whether row r joins u and v; or whether it is a must row that does.
pub fn joins(chart: &Chart, must: bool, r: usize, u: u8, v: u8) -> bool
    ensures { result ≡ joins_at (firsts_in must chart.now.words) (seconds_in must chart.now.words) r u v }
{
    let ends = chart.ends(must, r);
    ends == (u, v) || ends == (v, u)
}

/// The first legal step, by any row or by a must row, of the state with these nodes entered and this bound. The rows of two nodes are tried from their first on.
pub fn first_step(
    chart: &Chart,
    must: bool,
    fresh: u64,
    entered: &[u8],
    place: usize,
    node: u8,
) -> Option<Step>
    ensures { found_of result ≡ step_in chart.now.words must fresh entered.now place node }
{
    let limit = chart.limit();
    let rows = chart.row_count();
    let mut j = node;
    'places: for i in place..entered.len() {
        let pivot = entered[i];
        let open = spread::open_at(chart, must, fresh, pivot);
        'nodes: while j < limit {
            // the next open node; past the limit where there is none
            j = words::lowest(words::above(open, j));
            if j <= limit {
                'rows: for r in chart.first_row(pivot, j)..rows {
                    if joins(chart, must, r, pivot, j) {
                        return Some(Step {
                            place: i,
                            node: j,
                            row: r,
                        });
                    }
                }
            }
        }
        j = 0;
    }
    None
}
