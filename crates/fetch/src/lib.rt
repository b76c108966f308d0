//! A tree fetched by its number: from the index's entry at or below it, by at most s - 1 moves.
#![tactic(auto)]

ghost use Rattle.std.specs.Prelude.{◌≡◌, true, List, ◌≤◌, ℕ, length, take};
ghost use Rattle.indexes.specs.Index.{fetch_call};
ghost use Rattle.network_file.specs.File.{within};
ghost use Rattle.start.specs.Start.{ChartOf};
ghost use Rattle.fetch.specs.Answers.{fetched_of};

use chart::Chart;
use refusals::{Refusal, check};

// The tree with these rows in its first places.
fn placed(rows: &[u16]) -> [u16; 31]
    ensures { length rows.now ≤ 31 → take (length rows.now) result ≡ rows.now }
{
    let mut places = [0u16; 31];
    copies::copy(&mut places, 0, rows, rows.len());
    places
}

// A fetch over the chart of a file, with a spacing in range: 11, 26, the entry's checks, 26, and the tree.
fn fetched(
    chart: &Chart,
    spacing: u32,
    index: &[u16],
    tree: u64,
    buffer: &mut [u16],
) -> Result<u32, Refusal>
    ensures { (f : List ℕ) → ChartOf f chart.now.words → within 1 1000 spacing ≡ true
        → record { outcome = fetched_of result; buffers = buffer.new } ≡ fetch_call f spacing index.now tree buffer.old }
{
    let width = chart.width();
    check(width <= buffer.len(), Refusal::ShortBuffer)?;
    // the chart of a file has a node besides the plant, and a spacing in range is not 0
    check(width != 0, Refusal::NotIndexed)?;
    check(spacing != 0, Refusal::NotIndexed)?;
    let entries = index.len() / width;
    let entry = tree / spacing as u64;
    check(entry < entries as u64, Refusal::NotIndexed)?;
    let from = entry as usize * width;
    let rows = &index[from..from + width];
    start::check(chart, rows)?;
    let moves = (tree % spacing as u64) as u32;
    let Some(reached) = moves::moved(chart, Some(placed(rows)), moves as usize) else {
        return Err(Refusal::NotIndexed);
    };
    copies::copy(buffer, 0, &reached, width);
    Ok(moves)
}

/// Fetches a tree of the file's list by its number, from 0 on, with an index of a spacing of 1 to 1,000: its path in the first n - 1 places of the buffer. Answers the moves made.
pub fn fetch(
    file: &[u8],
    spacing: u32,
    index: &[u16],
    tree: u64,
    buffer: &mut [u16],
) -> Result<u32, Refusal>
    ensures { record { outcome = fetched_of result; buffers = buffer.new }
        ≡ fetch_call file.now spacing index.now tree buffer.old }
{
    network::open(file)?;
    check(moves::is_spacing(spacing), Refusal::NotIndexed)?;
    let mut chart = Chart::empty();
    charting::of_file(file, &mut chart);
    fetched(&chart, spacing, index, tree, buffer)
}
