//! The path that a sequence of rows makes: the places of a tree read back from a page.
#![tactic(auto)]

ghost use Rattle.std.specs.Prelude.{◌≡◌, ◌<◌};
ghost use Rattle.chart.specs.Chart.{plant_in};
ghost use Rattle.paths.specs.Path.{keys_of, plant_of};
ghost use Rattle.trace.specs.Trace.{end_by, entry_after, place_by, traced_in};

use chart::Chart;
use paths::Path;

// The end that a row enters: the second one where the first has an entry, else the first.
fn end_by(first: u8, a: u8, b: u8) -> u8
    ensures { result ≡ end_by first a b }
{
    if 0 < first { b } else { a }
}

// The place of the end that row i leaves, from the entries of both ends.
fn place_by(first: u8, second: u8, i: usize) -> u8
    requires { i < 31 }
    ensures { result ≡ place_by first second i }
{
    if 0 < first {
        first - 1
    } else if 0 < second {
        second - 1
    } else {
        i as u8 + 1
    }
}

// The entry of the node that row i enters, from its entry so far.
fn entry_after(entry: u8, i: usize) -> u8
    requires { i < 31 }
    ensures { result ≡ entry_after entry i }
{
    if 0 < entry { entry } else { i as u8 + 2 }
}

/// The path of these rows, each a step from its entered end to its other end.
pub fn trace(chart: &Chart, rows: &[u16]) -> Path
    ensures { (plant_of result ≡ plant_in chart.now.words) × (keys_of result ≡ traced_in chart.now.words rows.now) }
{
    let plant = chart.plant();
    // not by Path::start, which misses the speed of this form: its answer is copied
    let mut path = Path {
        rows: [0; 31],
        nodes: [plant; 32],
        pivots: [0; 31],
        len: 0,
    };
    // of each node the place at which it is first entered, plus 1; 0 where it is not entered: numbers, as specs/Trace.antt has them
    let mut entries = [0u8; 256];
    entries[plant as usize] = 1;
    // a path has room for 31 steps
    let n = rows.len().min(31);
    for (i, &row) in rows[..n].iter().enumerate() {
        let (a, b) = chart.ends(false, row as usize);
        let first = entries[a as usize];
        let second = entries[b as usize];
        let node = end_by(first, a, b);
        // stored in place, since to hand the path over would copy it at each row
        path.rows[i] = row;
        path.nodes[i + 1] = node;
        path.pivots[i] = place_by(first, second, i);
        path.len = i + 1;
        entries[node as usize] = entry_after(entries[node as usize], i);
    }
    path
}
