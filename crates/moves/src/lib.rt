//! Moves to a next tree, from a tree of a chart's list on. Up to 64 trees at a time are listed as Page lists them, in a part of its own, and the last of them is kept.
//! Of a chart whose trees cannot be listed, and of rows that are no tree of its list, nothing is said, but that it ends.
#![tactic(auto)]

ghost use Rattle.std.specs.Prelude.{◌≡◌, ◌+◌, ℕ};
ghost use Rattle.std.proofs.Math.ListN.{get_elem?};
ghost use Rattle.chart.specs.Chart.{list_in, width_in};
ghost use Rattle.fill.specs.Walkable.{Walkable};
ghost use Rattle.network_file.specs.File.{within};
ghost use Rattle.moves.specs.Tree.{tree_of};

use chart::Chart;

/// Whether it is a spacing of an index, from 1 to 1,000.
pub fn is_spacing(spacing: u32) -> bool
    ensures { result ≡ within 1 1000 spacing }
{
    1 <= spacing && spacing <= 1000
}

/// The tree so many moves behind a tree of the list, each with its rows in the first places; missing where the first is, or where the list ends before the last move.
pub fn moved(chart: &Chart, tree: Option<[u16; 31]>, moves: usize) -> Option<[u16; 31]>
    ensures { (i : ℕ) → let c = chart.now.words in Walkable c → tree_of (width_in c) tree ≡ get_elem? (list_in c) i
        → tree_of (width_in c) result ≡ get_elem? (list_in c) (i + moves) }
{
    let mut rows = tree?;
    let width = chart.width();
    // a tree has at most 31 rows
    if 31 < width {
        return tree;
    }
    let mut part = [0u16; 1984];
    let mut left = moves;
    while 0 < left {
        let trees = left.min(64);
        let places = trees * width;
        let filled = fill::fill(chart, &mut part[..places], &rows[..width]);
        if filled.count < trees {
            return None;
        }
        copies::copy(&mut rows, 0, &part[places - width..places], width);
        left -= trees;
    }
    Some(rows)
}
