//! Makes a chart, of one that is empty: its sizes, and its rows, each entered by its ends and its state; that of a network file. Where what stands is said in
//! chart's specs/Chart.antt, and that a chart made so is right in its proofs (Made, Files).
#![tactic(auto)]

ghost use Rattle.std.specs.Prelude.{◌≡◌, [], ◌+◌, ◌-◌, ◌≤◌};
ghost use Rattle.fields.specs.Fields.{row_with};
ghost use Rattle.network_file.specs.File.{network_of};
ghost use Rattle.chart.specs.Chart.{HasRows, begun_by, claimed_by, entered_by, entered_down, file_chart_on, joined_by, linked_by, row_word};

use chart::Chart;
use fields::{Row, State};

/// Writes the sizes.
pub fn begin(chart: &mut Chart, limit: u8, plant: u8, nodes: u64, width: usize, count: usize)
    ensures { chart.new.words ≡ begun_by chart.old.words limit plant nodes width count }
{
    chart.words[0] = limit as u64;
    chart.words[1] = plant as u64;
    chart.words[2] = nodes;
    chart.words[3] = width as u64;
    chart.words[4] = count as u64;
}

// The word of a row.
fn row_word(a: u8, b: u8, next: u16, u: u8, v: u8, state: u8) -> u64
    ensures { result ≡ row_word a b next u v state }
{
    a as u64
        + b as u64 * 256
        + next as u64 * 65536
        + u as u64 * 4294967296
        + v as u64 * 1099511627776
        + state as u64 * 281474976710656
}

// Makes v a neighbour of u in the words from a place on.
fn join(chart: &mut Chart, at: usize, u: u8, v: u8)
    requires { at + u ≤ 1000 }
    ensures { chart.new.words ≡ joined_by chart.old.words at u v }
{
    let i = at + u as usize;
    chart.words[i] = chart.words[i] | words::bit(v);
}

// Row r joins a and b.
fn link(chart: &mut Chart, r: usize, a: u8, b: u8, state: u8)
    requires { (r ≤ 255) × (a ≤ 32) × (b ≤ 32) }
    ensures { chart.new.words ≡ linked_by chart.old.words r a b state }
{
    let there = 71 + a as usize * 33 + b as usize;
    let back = 71 + b as usize * 33 + a as usize;
    let next = (chart.words[there] % 65536) as u16;
    join(chart, 5, a, b);
    join(chart, 5, b, a);
    chart.words[there] = r as u64;
    chart.words[back] = r as u64;
    chart.words[1160 + r] = row_word(a, b, next, a, b, state);
}

// A must row joins a and b.
fn claim(chart: &mut Chart, a: u8, b: u8)
    requires { (a ≤ 32) × (b ≤ 32) }
    ensures { chart.new.words ≡ claimed_by chart.old.words a b }
{
    join(chart, 38, a, b);
    join(chart, 38, b, a);
    join(chart, 38, 0, a);
    join(chart, 38, 0, b);
}

// Enters a row by its ends and its state; one whose ends have no place in a chart is left out.
fn enter_by(chart: &mut Chart, r: usize, a: u8, b: u8, state: State)
    requires { r ≤ 255 }
    ensures { chart.new.words ≡ entered_by chart.old.words r (row_with (record { first = a; second = b; street = 0; state = state }) []) }
{
    if 32 < a || 32 < b {
        return;
    }
    match state {
        State::Open => link(chart, r, a, b, 0),
        State::Must => {
            link(chart, r, a, b, 1);
            claim(chart, a, b);
        }
        State::Barred => {
            chart.words[1160 + r] = row_word(0, 0, 0, a, b, 2);
        }
    }
}

/// Enters a row by its ends and its state; a row that has no place in a chart is left out.
pub fn enter(chart: &mut Chart, r: usize, row: Row)
    ensures { chart.new.words ≡ entered_by chart.old.words r (row_with row []) }
{
    if r <= 255 {
        enter_by(chart, r, row.first, row.second, row.state);
    }
}

// Enters the rows below `count` of a file that has them all, from the last down; they end at `end`, and each is read in place.
fn enter_whole(file: &[u8], chart: &mut Chart, count: usize, end: usize)
    requires { HasRows file.now count end }
    ensures { chart.new.words ≡ entered_down (network_of file.now).rows count chart.old.words }
{
    let two = file[0] == 2;
    let step = fields::row_bytes(file);
    let mut at = end;
    for r in (0..count).rev() {
        at -= step;
        let number = if two { file[at + 4] } else { 0 };
        let state = chart::state_by(number as u64);
        // not as a row, which would go through memory
        enter_by(chart, r, file[at], file[at + 1], state);
    }
}

// As `enter_whole`, row by row, also of a file that is cut short.
fn enter_cut(file: &[u8], chart: &mut Chart, count: usize)
    ensures { chart.new.words ≡ entered_down (network_of file.now).rows count chart.old.words }
{
    for r in (0..count).rev() {
        enter(chart, r, fields::row_at(file, r));
    }
}

/// Makes the chart of a network file, of one that is empty: nodes 1 to n, the plant 1, and its rows, from the last down.
pub fn of_file(file: &[u8], chart: &mut Chart)
    ensures { chart.new.words ≡ file_chart_on file.now chart.old.words }
{
    let header = fields::header_of(file);
    let n = header.n;
    let m = header.m as usize;
    begin(
        chart,
        n,
        1,
        words::up_to(n),
        (n as usize).saturating_sub(1),
        m,
    );
    let count = chart::placed(m);
    let end = 9 + header.k as usize + count * fields::row_bytes(file);
    // where the rows are all there one test of the length does
    if end <= file.len() {
        enter_whole(file, chart, count, end);
    } else {
        enter_cut(file, chart, count);
    }
}
