//! Rows drawn in the network of a chart: whether they are a spanning tree that keeps the rows' states, and the tree's minimal path.
//! The path is grown over the chart of the drawn rows alone; it has all nodes exactly if the rows are a spanning tree. The states are asked last.
#![tactic(auto)]

ghost use Rattle.std.specs.Prelude.{◌≡◌, [], ltb, get_or};
ghost use Rattle.lists.specs.Lists.{all};
ghost use Rattle.costs.specs.Network.{no_row};
ghost use Rattle.fields.specs.Fields.{row_with};
ghost use Rattle.paths.specs.Path.{keys_of, plant_of};
ghost use Rattle.chart.specs.Chart.{plant_in, rows_in};
ghost use Rattle.tried.specs.Answers.{drawn_of};
ghost use Rattle.tried.specs.Only.{marks_of, only_on, only_row};
ghost use Rattle.tried.specs.Tried.{drawn_keys, keeps, kept_by, tried_of};

use chart::Chart;
use fields::{Row, State};
use paths::Path;
use refusals::{Refusal, check};

// Check 9: whether every row is below m.
fn below(rows: &[u16], m: usize) -> bool
    ensures { result ≡ all (λ q. ltb q m) rows.now }
{
    rows.iter().all(|&row| (row as usize) < m)
}

// For each row of a chart, whether it is drawn.
fn marks(rows: &[u16]) -> [bool; 256]
    ensures { result ≡ marks_of rows.now }
{
    let mut drawn = [false; 256];
    for &row in rows {
        if row < 256 {
            drawn[row as usize] = true;
        }
    }
    drawn
}

// A row as one that is drawn, or as one that is taken out.
fn only_row(chart: &Chart, r: usize, drawn: bool) -> Row
    ensures { row_with result [] ≡ only_row (get_or (rows_in chart.now.words) r no_row) drawn }
{
    let row = chart.row_at(r);
    Row {
        street: 0,
        state: if drawn { State::Open } else { State::Barred },
        ..row
    }
}

// Makes the chart of the drawn rows alone, of one that is empty.
fn only_drawn(chart: &Chart, drawn: [bool; 256], out: &mut Chart)
    ensures { out.new.words ≡ only_on chart.now.words drawn out.old.words }
{
    let count = chart.row_count();
    charting::begin(
        out,
        chart.limit(),
        chart.plant(),
        chart.nodes(),
        chart.width(),
        count,
    );
    for r in (0..count).rev() {
        charting::enter(out, r, only_row(chart, r, drawn[r]));
    }
}

// The path that first steps grow over the drawn rows alone.
fn grown_over(chart: &Chart, drawn: [bool; 256]) -> Path
    ensures { (plant_of result ≡ plant_in chart.now.words) × (keys_of result ≡ drawn_keys chart.now.words drawn) }
{
    let mut alone = Chart::empty();
    only_drawn(chart, drawn, &mut alone);
    let start = Path::start(chart.plant());
    let fresh = grow::fresh_after(chart.nodes(), start);
    grow::grown_with(&alone, chart.width(), fresh, start, 0, 0)
}

// Whether a row keeps its state: no barred row is drawn, and a must row is.
fn row_kept(chart: &Chart, r: usize, drawn: bool) -> bool
    ensures { result ≡ keeps (get_or (rows_in chart.now.words) r no_row).state drawn }
{
    let state = chart.row_at(r).state;
    if drawn {
        !state.is_barred()
    } else {
        !state.is_must()
    }
}

// Check 15: whether every row keeps its state.
fn kept(chart: &Chart, drawn: [bool; 256]) -> bool
    ensures { result ≡ kept_by chart.now.words drawn }
{
    for r in 0..chart.row_count() {
        if !row_kept(chart, r, drawn[r]) {
            return false;
        }
    }
    true
}

/// The minimal path of rows drawn in the network of a chart, else the first of checks 8, 9, 10 and 15 that is not met.
#[tactic(auto, unfolding(checks::specs::Checks::checked, checks::specs::Checks::first_unmet, crate::specs::Tried::tried_checks, crate::specs::Tried::tried_of))]
pub fn tried(chart: &Chart, rows: &[u16]) -> Result<Path, Refusal>
    ensures { drawn_of result ≡ tried_of chart.now.words rows.now }
{
    let width = chart.width();
    check(rows.len() == width, Refusal::WrongRowCount)?;
    check(below(rows, chart.row_count()), Refusal::UnknownRow)?;
    let drawn = marks(rows);
    let path = grown_over(chart, drawn);
    check(path.length() == width, Refusal::NotATree)?;
    check(kept(chart, drawn), Refusal::BrokenState)?;
    Ok(path)
}
