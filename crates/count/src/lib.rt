//! Count: how many trees the list has, without listing them. The rows become links between 32 nodes, which are counted by dropping and by merging.
#![tactic(auto)]

ghost use Rattle.std.specs.Prelude.{◌≡◌, min};
ghost use Rattle.counts.specs.Count.{count_call};
ghost use Rattle.counts.specs.Matrix.{Agree, limit};
ghost use Rattle.counts.specs.States.{empty, fill_held, states_of, weight_of};
ghost use Rattle.counts.specs.Trees.{tree_count};
ghost use Rattle.fields.specs.Fields.{state_in};
ghost use Rattle.network_file.proofs.Accepted.{Accepted};
ghost use Rattle.network_file.specs.File.{network_of, sizes_of};
ghost use Rattle.operations.specs.Operations.{graph_in};
ghost use Rattle.weights.specs.Weights.{matrix_in, weight_in};
ghost use Rattle.count.specs.Answers.{counted_of};

use chart::Chart;
use fields::State;
use refusals::{Refusal, check};
use weights::{Links, Weight};

// The weight of a row: an open row is dropped or merged, a must row only merged, a barred row only dropped.
fn weight_of(state: State) -> Weight
    ensures { weight_in result ≡ weight_of (state_in state) }
{
    match state {
        State::Open => Weight {
            dropped: 1,
            merged: 1,
        },
        State::Must => Weight {
            dropped: 0,
            merged: 1,
        },
        State::Barred => Weight::ABSENT,
    }
}

// The links of the first m rows, those between the same nodes as one; node p stands at p - 1.
fn links_of(file: &[u8], m: usize) -> Links
    requires { Accepted file.now × (m ≡ (sizes_of file.now).m) }
    ensures { Agree (matrix_in result.weights) (fill_held limit (graph_in file.now) 0 (states_of (network_of file.now)) empty) 32 }
{
    let mut links = Links::none();
    for r in 0..m {
        let row = fields::row_at(file, r);
        let first = row.first as usize - 1;
        let second = row.second as usize - 1;
        links.add(first, second, weight_of(row.state));
    }
    links
}

// How many trees there are, held.
fn trees_of(file: &[u8], n: usize, m: usize) -> u32
    requires { Accepted file.now × (n ≡ (sizes_of file.now).n) × (m ≡ (sizes_of file.now).m) }
    ensures { result ≡ min limit (tree_count (network_of file.now)) }
{
    counted::counted(links_of(file, m), n)
}

/// Count: how many trees the list has; refused by 25 above 4,000,000,000.
pub fn count(file: &[u8]) -> Result<u32, Refusal>
    ensures { counted_of result ≡ count_call file.now }
{
    let header = network::open(file)?;
    // without a tree nothing is counted: a network in two parts would be searched to its end
    let mut chart = Chart::empty();
    if listed::listed(file, &mut chart).is_err() {
        return Ok(0);
    }
    let trees = trees_of(file, header.n as usize, header.m as usize);
    check(trees <= 4_000_000_000, Refusal::TooManyTrees)?;
    Ok(trees)
}
