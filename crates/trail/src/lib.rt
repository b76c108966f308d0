//! The walk in place, as it is read: a path in lent arrays, the nodes entered by place, the places of the pivots and the set of the nodes entered up to each place, beside
//! its rows in a tree's places of a page; the turn that leads to the next path is found. specs/Trail.antt says which path they hold, and what a turn makes of it.
#![tactic(auto)]

ghost use Rattle.std.specs.Prelude.{◌≡◌, true, List, get_or};
ghost use Rattle.chart.proofs.Charts.{Charts};
ghost use Rattle.chart.specs.Chart.{firsts_in, graph_in, musts_in, near_in, plant_in};
ghost use Rattle.graph.proofs.Growth.{rows_of, start};
ghost use Rattle.graph.specs.Paths.{Key};
ghost use Rattle.states.proofs.Full.{Full};
ghost use Rattle.states.specs.States.{must_row};
ghost use Rattle.grow.proofs.Leads.{MustsLead};
ghost use Rattle.trail.specs.Trail.{Holds, TurnsTo, open_beyond};

use chart::Chart;

/// From which step on a path changes, with its key, and by which parallel row; row 0 where the bound moves up to that key instead.
#[derive(Clone, Copy, Debug, PartialEq, Eq)]
pub struct Turn {
    pub at: usize,
    pub place: u8,
    pub node: u8,
    pub row: u16,
}

// Whether the node is still reached once the bound is moved up to the step to it from a place: from a node entered later, or by way of fresh nodes.
#[tactic(auto, unfolding(crate::specs::Trail::open_beyond))]
fn open_past(chart: &Chart, fresh: u64, later: u64, entered: &[u8], place: u8, node: u8) -> bool
    ensures { result ≡ open_beyond chart.now.words fresh later entered.now place node }
{
    let near = chart.near(false, node);
    if near & later != 0 {
        return true;
    }
    if near & fresh == 0 {
        return false;
    }
    let seeds = spread::seeds(chart, false, fresh, entered, place as usize, node);
    words::has(spread::spread(chart, false, fresh, seeds), node)
}

// Whether a row of a tree is not given up: a must row. Where no node is at the end of one, as this word tells, no row is looked at.
#[tactic(auto, using(crate::proofs::Back::none_kept))]
fn is_kept(chart: &Chart, claimed: u64, row: usize) -> bool
    ensures { let c = chart.now.words in MustsLead c → claimed ≡ get_or (near_in true c) 0 0 → result ≡ must_row (firsts_in true c) row }
{
    claimed != 0 && chart.is_must(row)
}

// The parts of the path stay apart, here and in crate regrow: a struct that holds the arrays would narrow `entered`, for which any slice may be lent.
/// The last step of a path that can change, with its rows in these places.
pub fn next_turn(
    chart: &Chart,
    entered: &[u8],
    pivots: &[u8; 31],
    sets: &[u64; 32],
    rows: &[u16],
) -> Option<Turn>
    ensures { (keys : List Key) → let c = chart.now.words in Charts c → Full (graph_in c) (start (graph_in c)) (musts_in c) keys
        → Holds entered.now pivots.now sets.now (plant_in c) keys → rows.now ≡ rows_of keys
        → TurnsTo c (plant_in c) keys result }
{
    let nodes = chart.nodes();
    let claimed = chart.near(true, 0);
    let steps = rows.len();
    if 31 < steps {
        return None;
    }
    if entered.len() <= steps {
        return None;
    }
    for i in (0..steps).rev() {
        let row = rows[i] as usize;
        if is_kept(chart, claimed, row) {
            continue;
        }
        let n = i + 1;
        let node = entered[n];
        let place = pivots[i];
        let beside = chart.next_row(row);
        if beside != 0 {
            return Some(Turn {
                at: i,
                place,
                node,
                row: beside,
            });
        }
        let set = sets[i];
        let later = words::minus(set, slices::at(sets, place as usize, 0));
        let fresh = words::minus(nodes, set);
        if open_past(chart, fresh, later, &entered[..n], place, node) {
            return Some(Turn {
                at: i,
                place,
                node,
                row: 0,
            });
        }
    }
    None
}
