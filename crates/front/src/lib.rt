//! Front: the vectors of the network's trees that no such tree's vector dominates, ascending, each with the first tree of the list that has it.
//! Where a network has few trees all are walked; else the rows of the front are sought one by one. Both ways keep the same promise, so that the choice is one of speed alone.
#![tactic(auto)]

ghost use Rattle.std.specs.Prelude.{◌≡◌, ◌≤◌};
ghost use Rattle.fronted.specs.Answers.{fronted_of};
ghost use Rattle.operations.specs.Operations.{front_call};

use chart::Chart;
use fronted::Rows;
use refusals::Refusal;

// How many rows have an end at v.
fn degree(chart: &Chart, v: u8) -> u64
    ensures { result ≤ 256 }
{
    (0..chart.row_count())
        .filter(|r| { chart.first_end(false, *r) == v || chart.second_end(false, *r) == v })
        .count() as u64
}

// Up to so many trees the list is walked: with more criteria a front has more rows to seek, and a walk takes the same time whatever their number.
fn most_walked(k: u8) -> u64
    ensures { result ≤ 10000000 }
{
    match k {
        0..=1 => 10000,
        2 => 100000,
        3 => 1000000,
        4..=255 => 10000000,
    }
}

// Whether the network has few trees: a tree has for each node but the plant one row to the node before it, so that there are no more trees than the product of
// the nodes' degrees.
fn has_few_trees(file: &[u8]) -> bool {
    let most = most_walked(fields::header_of(file).k);
    let mut chart = Chart::empty();
    charting::of_file(file, &mut chart);
    let mut product = 1;
    for v in 2..=chart.limit() {
        product *= degree(&chart, v);
        if most < product {
            return false;
        }
    }
    true
}

/// Front: the first vectors of the front, as many as fit, each with the first tree of the list that has it.
pub fn front(file: &[u8], costs: &mut [u32], witnesses: &mut [u16]) -> Result<Rows, Refusal>
    ensures { record { outcome = fronted_of result; buffers = record { costs = costs.new; witnesses = witnesses.new } }
        ≡ front_call file.now costs.old witnesses.old }
{
    if has_few_trees(file) {
        walked::front(file, costs, witnesses)
    } else {
        sought::front(file, costs, witnesses)
    }
}
