//! What a growing path still reaches: the nodes that a legal step enters, and the spread from there; by any rows, or by must rows alone.
//! Sets of nodes are words (crate words). Each function is equal to its model in specs/Spread.antt, over the neighbours of the chart.
#![tactic(auto)]

ghost use Rattle.std.specs.Prelude.{◌≡◌};
ghost use Rattle.chart.specs.Chart.{limit_in, near_in};
ghost use Rattle.spread.specs.Spread.{brought_by, open_at, seeds_of, spread_of};

use chart::Chart;

/// The open neighbours of a node: those that are fresh.
pub fn open_at(chart: &Chart, must: bool, fresh: u64, u: u8) -> u64
    ensures { result ≡ open_at (near_in must chart.now.words) fresh u }
{
    chart.near(must, u) & fresh
}

/// The nodes that a legal step enters, of the state with these nodes entered and this bound.
pub fn seeds(chart: &Chart, must: bool, fresh: u64, entered: &[u8], place: usize, node: u8) -> u64
    ensures { result ≡ seeds_of (near_in must chart.now.words) fresh entered.now place node }
{
    if entered.len() <= place {
        return 0;
    }
    let mut word = words::above(open_at(chart, must, fresh, entered[place]), node);
    for &u in &entered[place + 1..] {
        word |= open_at(chart, must, fresh, u);
    }
    word
}

// What a member brings in: its open neighbours, if it is a node up to the limit.
fn brought(chart: &Chart, must: bool, fresh: u64, u: u8) -> u64
    ensures { result ≡ brought_by (near_in must chart.now.words) (limit_in chart.now.words) fresh u }
{
    if u == 0 || chart.limit() < u {
        return 0;
    }
    open_at(chart, must, fresh, u)
}

/// The seeds, and every fresh node that neighbours join to them by way of fresh nodes. Each member brings in its neighbours once.
pub fn spread(chart: &Chart, must: bool, fresh: u64, seeds: u64) -> u64
    ensures { result ≡ spread_of (near_in must chart.now.words) (limit_in chart.now.words) fresh seeds }
{
    let mut word = seeds;
    let mut left = seeds;
    while left != 0 {
        let u = words::lowest(left);
        let more = words::minus(brought(chart, must, fresh, u), word);
        word |= more;
        left = words::minus(left, words::bit(u)) | more;
    }
    word
}
