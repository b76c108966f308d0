//! Front by search, row by row in its own order: the next row is the least vector that the rows so far do not meet, and its witness the first path of the
//! list with that vector. Past the capacity one more search tells whether the rows are the whole front.
#![tactic(auto)]

ghost use Rattle.std.specs.Prelude.{◌≡◌, ◌*◌, ◌+◌, ◌<◌, ◌≤◌, ℕ, get_or, length};
ghost use Rattle.std.proofs.Math.Seq.{paste};
ghost use Rattle.checks.specs.Checks.{answered};
ghost use Rattle.operations.specs.Operations.{front_call};
ghost use Rattle.chart.specs.Chart.{width_in};
ghost use Rattle.fronted.specs.Answers.{fronted_of, rows_of};
ghost use Rattle.fronted.specs.Filled.{Filled, Holding, Lent};
ghost use Rattle.paths.specs.Path.{rows_in};
ghost use Rattle.least.specs.Trees.{count_of};
ghost use Rattle.sought.specs.Sought.{Copied, row_of, step_up, up_from};
ghost use Rattle.sought.specs.Spaces.{FirstIn, FoundIn, NextIn, ReadyIn, SearchedIn, WantedIn};

use chart::Chart;
use find::Space;
use fronted::{Room, Rows};
use labels::Ends;
use least::Trees;
use paths::Path;
use refusals::Refusal;
use std::array;
use tally::Criteria;

/// Every component of a tree's vector is below this: 31 rows that cost at most 1,000,000 each.
const TOP: u64 = 33554432;

// One above a component of a vector with k components; past them 1, so that 0 is let in.
fn above(k: u8, c: u8, x: u64) -> u64
    ensures { result ≡ step_up k c x }
{
    if c < k {
        TOP.min(x.saturating_add(1))
    } else {
        1
    }
}

// Limits one above a vector.
fn limits_above(k: u8, v: [u64; 4]) -> [u64; 4]
    ensures { result ≡ up_from k v }
{
    array::from_fn(|c| above(k, c as u8, v[c]))
}

// The first ends of the rows, their second ends, and the first ends of the must rows, each with 0 past the rows.
#[derive(Clone, Copy)]
struct Columns {
    firsts: [u8; 256],
    seconds: [u8; 256],
    heads: [u8; 256],
}

// The ends of a chart's rows as arrays.
fn columns_of(chart: &Chart) -> Columns
    ensures { Copied chart.now.words result.firsts result.seconds result.heads }
{
    Columns {
        firsts: array::from_fn(|r| chart.first_end(false, r)),
        seconds: array::from_fn(|r| chart.second_end(false, r)),
        heads: array::from_fn(|r| chart.first_end(true, r)),
    }
}

// The first path of the list inside the limits: on by a step while a wanted path begins so, else behind all paths that begin so.
fn witness(chart: &Chart, space: Space<'_>, heads: &[u8], limits: [u64; 4]) -> Path
    requires { ReadyIn chart.now.words space heads.now × ((c : ℕ) → space.criteria.k ≤ c → c < 4 → 0 < get_or limits c 0) × WantedIn chart.now.words space limits }
    ensures { FirstIn chart.now.words space.entry limits result }
{
    let width = chart.width();
    let mut path = grow::first_path(chart);
    let mut len = 0;
    while len < width {
        if branch::opens(space, heads, limits, path, len + 1) {
            len += 1;
        } else {
            path = walk::after(chart, path, len + 1).unwrap_or(path);
        }
    }
    path
}

// The least vector that the known rows do not meet.
fn next_row(trees: &Trees<'_>, costs: &[u32], count: usize) -> Option<[u64; 4]>
    requires { count * count_of trees.now ≤ length costs.now }
    ensures { NextIn trees.now costs.now count result }
{
    let end = count * trees.space.criteria.k as usize;
    trees.least(&costs[..end], [TOP; 4], [0; 4], None)
}

// Writes a vector and a path as a row of the lent tables.
fn write(
    costs: &mut [u32],
    witnesses: &mut [u16],
    count: usize,
    k: u8,
    width: usize,
    v: [u64; 4],
    path: Path,
)
    requires { Holding (count + 1) k width costs.old witnesses.old × (k ≤ 4) × (width ≡ length (rows_in path)) }
    ensures { (costs.new ≡ paste costs.old (count * k) (row_of v) k) × (witnesses.new ≡ paste witnesses.old (count * width) (rows_in path) width) }
{
    let step = k as usize;
    let row = v.map(|x| (x % 4294967296) as u32);
    copies::copy(costs, count * step, &row, step);
    copies::copy(witnesses, count * width, &path.rows, width);
}

// Row after row until none is left, or no more fit.
fn rows(
    chart: &Chart,
    space: Space<'_>,
    heads: &[u8],
    capacity: usize,
    costs: &mut [u32],
    witnesses: &mut [u16],
) -> Rows
    requires { SearchedIn chart.now.words space heads.now × Holding capacity space.criteria.k (width_in chart.now.words) costs.old witnesses.old }
    ensures { FoundIn chart.now.words space.entry capacity costs.old witnesses.old (answered (rows_of result)) costs.new witnesses.new }
{
    let k = space.criteria.k;
    let width = chart.width();
    let musts = costing::musts_of(heads);
    let free = costing::free_of(space.ends, heads, space.limit);
    let trees = Trees { space, musts, free };
    for count in 0..capacity {
        let Some(v) = next_row(&trees, costs, count) else {
            return Rows { count, whole: true };
        };
        let path = witness(chart, space, heads, limits_above(k, v));
        write(costs, witnesses, count, k, width, v, path);
    }
    let whole = next_row(&trees, costs, capacity).is_none();
    Rows {
        count: capacity,
        whole,
    }
}

// The same, with the tables of the search still to be made.
fn fill(file: &[u8], room: &Room, costs: &mut [u32], witnesses: &mut [u16]) -> Rows
    requires { Lent file.now costs.old witnesses.old room.now }
    ensures { Filled file.now room.now.capacity costs.old witnesses.old (answered (rows_of result)) costs.new witnesses.new }
{
    let chart = &room.chart;
    let columns = columns_of(chart);
    let m = chart.row_count();
    let prices = costing::costs_of(file);
    let leads = costing::leads_of(file);
    let space = Space {
        ends: Ends {
            firsts: &columns.firsts[..m],
            seconds: &columns.seconds[..m],
        },
        limit: chart.limit(),
        criteria: Criteria {
            kinds: costing::kinds_of(file),
            k: room.header.k,
            costs: &prices,
            leads: &leads,
        },
    };
    rows(
        chart,
        space,
        &columns.heads[..m],
        room.capacity,
        costs,
        witnesses,
    )
}

/// Front, by search: the first vectors of the front, as many as fit, each with the first tree of the list that has it.
pub fn front(file: &[u8], costs: &mut [u32], witnesses: &mut [u16]) -> Result<Rows, Refusal>
    ensures { record { outcome = fronted_of result; buffers = record { costs = costs.new; witnesses = witnesses.new } }
        ≡ front_call file.now costs.old witnesses.old }
{
    let room = fronted::open(file, costs, witnesses)?;
    Ok(fill(file, &room, costs, witnesses))
}
