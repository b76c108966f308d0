//! An index beside the list, which is built: trees 0, s, 2 × s and so on, n - 1 places each.
//! A first walk tells whether it fits, and ends as soon as it is known that it does not; the second writes it. So a refusal leaves the buffer as it was.
#![tactic(auto)]

ghost use Rattle.std.specs.Prelude.{◌≡◌, true, List, ◌*◌, ◌≤◌, ℕ, leb, length};
ghost use Rattle.std.proofs.Math.ListN.{get_elem?};
ghost use Rattle.chart.specs.Chart.{list_in, width_in};
ghost use Rattle.fill.specs.Walkable.{Walkable};
ghost use Rattle.indexes.specs.Index.{index_call, indexed};
ghost use Rattle.moves.specs.Tree.{tree_of};
ghost use Rattle.network_file.specs.File.{within};
ghost use Rattle.operations.specs.Operations.{over};
ghost use Rattle.pages.specs.Pages.{flat};
ghost use Rattle.start.specs.Start.{ChartOf};
ghost use Rattle.index.specs.Answers.{indexed_of};

use chart::Chart;
use refusals::{Refusal, check};

// The first tree of the chart's list, with its rows in the first places.
fn first_tree(chart: &Chart) -> Option<[u16; 31]>
    ensures { (f : List ℕ) → let c = chart.now.words in ChartOf f c → tree_of (width_in c) result ≡ get_elem? (list_in c) 0 }
{
    let path = walk::first(chart)?;
    Some(path.rows)
}

// Whether the index has at most so many entries. Nothing is written.
fn fits(chart: &Chart, first: Option<[u16; 31]>, spacing: usize, most: usize) -> bool
    ensures { let c = chart.now.words in Walkable c → tree_of (width_in c) first ≡ get_elem? (list_in c) 0 → 1 ≤ spacing
        → result ≡ leb (length (indexed spacing (list_in c))) most }
{
    let mut entry = first;
    for _ in 0..most {
        if entry.is_none() {
            return true;
        }
        entry = moves::moved(chart, entry, spacing);
    }
    entry.is_none()
}

// Writes the index over the first places of the buffer, as many entries as it has room for, and counts them.
fn write(chart: &Chart, first: Option<[u16; 31]>, spacing: usize, index: &mut [u16]) -> usize
    ensures { let c = chart.now.words in let entries = indexed spacing (list_in c) in Walkable c → tree_of (width_in c) first ≡ get_elem? (list_in c) 0 → 1 ≤ spacing
        → length entries * width_in c ≤ length index.old → (result ≡ length entries) × (index.new ≡ over (flat entries) index.old) }
{
    let width = chart.width();
    // trees of no row would never fill the buffer
    if width == 0 {
        return 0;
    }
    let mut tree = first;
    let mut at: usize = 0;
    let mut count: usize = 0;
    while let Some(rows) = tree {
        if index.len() - at < width {
            return count;
        }
        copies::copy(index, at, &rows, width);
        at += width;
        count += 1;
        tree = moves::moved(chart, tree, spacing);
    }
    count
}

// A build over the chart of a file, with a spacing in range: 12, 11, and the index.
fn built(chart: &Chart, spacing: usize, index: &mut [u16]) -> Result<usize, Refusal>
    ensures { (f : List ℕ) → ChartOf f chart.now.words → within 1 1000 spacing ≡ true
        → record { outcome = indexed_of result; buffers = index.new } ≡ index_call f spacing index.old }
{
    let first = first_tree(chart);
    check(first.is_some(), Refusal::NoTree)?;
    let width = chart.width();
    // the chart of a file has a node besides the plant
    check(width != 0, Refusal::NoTree)?;
    check(
        fits(chart, first, spacing, index.len() / width),
        Refusal::ShortBuffer,
    )?;
    Ok(write(chart, first, spacing, index))
}

/// Builds the index of the file's trees for a spacing of 1 to 1,000, from the first place of the buffer on: how many trees it holds.
pub fn build(file: &[u8], spacing: u32, index: &mut [u16]) -> Result<usize, Refusal>
    ensures { record { outcome = indexed_of result; buffers = index.new } ≡ index_call file.now spacing index.old }
{
    network::open(file)?;
    check(moves::is_spacing(spacing), Refusal::NotIndexed)?;
    let mut chart = Chart::empty();
    charting::of_file(file, &mut chart);
    built(&chart, spacing as usize, index)
}
