//! The answer of Front, and its checks: for the crates that find the front in different ways, and for their callers.
//! What an answer stands for is in specs/Answers.antt.
#![tactic(auto)]

ghost use Rattle.std.specs.Prelude.{◌≡◌, MatchResult};
ghost use Rattle.std.proofs.Math.Option.{some};
ghost use Rattle.checks.specs.Checks.{first_unmet};
ghost use Rattle.operations.specs.Operations.{front_checks};
ghost use Rattle.refusals.specs.Refusals.{number_of};
ghost use Rattle.fronted.specs.Filled.{Lent};

use chart::Chart;
use fields::Header;
use refusals::{Refusal, check};

/// How many rows of the front were written, and whether they are the whole front.
#[derive(Clone, Copy, Debug, PartialEq, Eq)]
pub struct Rows {
    pub count: usize,
    pub whole: bool,
}

/// What a front is found with: the file's sizes, the chart of its network, and how many rows both lent tables hold.
#[derive(Clone, Copy)]
pub struct Room {
    pub header: Header,
    pub chart: Chart,
    pub capacity: usize,
}

/// Front's checks of a file and of the lent tables: those of Open, then 12, then 11.
pub fn open(file: &[u8], costs: &[u32], witnesses: &[u16]) -> Result<Room, Refusal>
    ensures { MatchResult result
        (λ room. Lent file.now costs.now witnesses.now room)
        (λ e. first_unmet (front_checks file.now costs.now witnesses.now) ≡ some (number_of e)) }
{
    let mut chart = Chart::empty();
    let header = listed::listed(file, &mut chart)?;
    let k = header.k as usize;
    let width = header.n as usize - 1;
    check(
        k <= costs.len() && width <= witnesses.len(),
        Refusal::ShortBuffer,
    )?;
    let capacity = (costs.len() / k).min(witnesses.len() / width);
    Ok(Room {
        header,
        chart,
        capacity,
    })
}
