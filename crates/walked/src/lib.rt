//! Front by walking the whole list, for networks with few trees.
//! Passes over the list: rows known to be final stand in the lent tables, candidates behind them in a scratch table of the function's own.
#![tactic(auto)]

ghost use Rattle.std.specs.Prelude.{◌≡◌, ◌+◌};
ghost use Rattle.checks.specs.Checks.{answered};
ghost use Rattle.costs.specs.Costs.{cost_of};
ghost use Rattle.chart.specs.Chart.{width_in};
ghost use Rattle.network_file.proofs.Accepted.{Accepted};
ghost use Rattle.network_file.specs.File.{network_of, sizes_of};
ghost use Rattle.operations.specs.Operations.{front_call};
ghost use Rattle.paths.specs.Path.{rows_in};
ghost use Rattle.scratch.specs.Scratch.{offer_of};
ghost use Rattle.fronted.specs.Answers.{fronted_of, rows_of};
ghost use Rattle.fronted.specs.Filled.{Filled, Holding};
ghost use Rattle.walked.specs.Passes.{KnownRows, Laid, Passed, scratch_rows};

use chart::Chart;
use fronted::Rows;
use paths::Path;
use refusals::Refusal;
use scratch::Scratch;

/// How many rows the scratch table has.
const SCRATCH: usize = 64;

// Offers a path with its vector to the scratch table, behind the known rows.
fn offer(
    file: &[u8],
    k: usize,
    known: &[u32],
    count: usize,
    costs: &mut [u32],
    witnesses: &mut [u16],
    scratch: Scratch,
    path: Path,
) -> Scratch
    requires { Accepted file.now × (k ≡ (sizes_of file.now).k) }
    ensures { record { scratch = result; costs = costs.new; witnesses = witnesses.new }
        ≡ offer_of known.now count costs.old witnesses.old scratch_rows scratch (cost_of (network_of file.now) (rows_in path)) (rows_in path) }
{
    let vector = vector::vector(file, path);
    scratch::offer(
        known,
        count,
        costs,
        witnesses,
        SCRATCH,
        scratch,
        &vector[..k],
        steps::rows(&path),
    )
}

// One pass over the list: what stands behind the known rows at its end.
fn pass(
    file: &[u8],
    chart: &Chart,
    known: &[u32],
    count: usize,
    costs: &mut [u32],
    witnesses: &mut [u16],
) -> Scratch
    requires { Laid file.now chart.now.words × KnownRows file.now count known.now × Holding (scratch_rows + 1) (sizes_of file.now).k (width_in chart.now.words) costs.old witnesses.old }
    ensures { Passed file.now chart.now.words count result costs.new witnesses.new }
{
    let header = fields::header_of(file);
    let k = header.k as usize;
    let mut scratch = Scratch {
        count: 0,
        bounded: false,
    };
    let mut path = grow::first_path(chart);
    loop {
        scratch = offer(file, k, known, count, costs, witnesses, scratch, path);
        // behind the path alone: all trees that begin with all its steps
        let len = steps::rows(&path).len();
        let Some(next) = walk::after(chart, path, len) else {
            return scratch;
        };
        path = next;
    }
}

// Passes until all rows are known, or more than fit.
fn passes(
    file: &[u8],
    chart: &Chart,
    capacity: usize,
    costs: &mut [u32],
    witnesses: &mut [u16],
) -> Rows
    requires { Laid file.now chart.now.words × Holding capacity (sizes_of file.now).k (width_in chart.now.words) costs.old witnesses.old }
    ensures { Filled file.now capacity costs.old witnesses.old (answered (rows_of result)) costs.new witnesses.new }
{
    let header = fields::header_of(file);
    let k = header.k as usize;
    let width = chart.width();
    let mut vectors = [0u32; (SCRATCH + 1) * 4];
    let mut trees = [0u16; (SCRATCH + 1) * 31];
    let mut count: usize = 0;
    loop {
        let scratch = pass(file, chart, costs, count, &mut vectors, &mut trees);
        let room = capacity - count;
        let fit = room.min(scratch.count);
        copies::copy(costs, count * k, &vectors, fit * k);
        copies::copy(witnesses, count * width, &trees, fit * width);
        if room < scratch.count {
            return Rows {
                count: capacity,
                whole: false,
            };
        }
        count += fit;
        if !scratch.bounded {
            return Rows { count, whole: true };
        }
    }
}

/// Front: the first vectors of the front, as many as fit, each with the first tree of the list that has it.
pub fn front(file: &[u8], costs: &mut [u32], witnesses: &mut [u16]) -> Result<Rows, Refusal>
    ensures { record { outcome = fronted_of result; buffers = record { costs = costs.new; witnesses = witnesses.new } }
        ≡ front_call file.now costs.old witnesses.old }
{
    let room = fronted::open(file, costs, witnesses)?;
    Ok(passes(file, &room.chart, room.capacity, costs, witnesses))
}
