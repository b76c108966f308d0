//! The scratch table of Front: at most so many rows, candidates behind the known rows of the lent tables.
//! A vector that is not below the bound, or that a known row meets, is left; else it is entered. Of one row too many the last is dropped: it stays
//! where it stands, behind the rows, and its vector is the bound.
#![tactic(auto)]

ghost use Rattle.std.specs.Prelude.{◌≡◌, ◌*◌, ◌+◌, ◌≤◌, length};
ghost use Rattle.table.specs.Answers.{entering_of};
ghost use Rattle.tables.specs.Tables.{below};
ghost use Rattle.scratch.specs.Scratch.{bound_in, offer_of, settled};

use table::Entered;

/// How many rows the table has, and whether a row was dropped.
#[derive(Clone, Copy, Debug, PartialEq, Eq)]
pub struct Scratch {
    pub count: usize,
    pub bounded: bool,
}

// Whether the vector is below the bound.
#[tactic(auto, unfolding(crate::specs::Scratch::bound_in))]
fn is_below(costs: &[u32], rows: usize, bounded: bool, vector: &[u32]) -> bool
    requires { rows * length vector.now + length vector.now ≤ length costs.now }
    ensures { result ≡ below (bound_in rows (length vector.now) bounded costs.now) vector.now }
{
    let k = vector.len();
    let from = rows * k;
    !bounded || compare::less(vector, &costs[from..from + k])
}

// How the table stands after entering: one row too many is dropped.
fn settle(rows: usize, scratch: Scratch, entered: Entered) -> Scratch
    ensures { result ≡ settled rows scratch (entering_of entered) }
{
    match entered {
        Entered::Unfit | Entered::Met | Entered::Full => scratch,
        Entered::Rows(n) if rows < n => Scratch {
            count: rows,
            bounded: true,
        },
        Entered::Rows(count) => Scratch { count, ..scratch },
    }
}

/// Offers a vector with its tree to a scratch table of so many rows, behind the first `count` known rows.
#[tactic(auto, unfolding(crate::specs::Scratch::offer_of))]
pub fn offer(
    known: &[u32],
    count: usize,
    costs: &mut [u32],
    witnesses: &mut [u16],
    rows: usize,
    scratch: Scratch,
    vector: &[u32],
    path: &[u16],
) -> Scratch
    ensures { record { scratch = result; costs = costs.new; witnesses = witnesses.new }
        ≡ offer_of known.now count costs.old witnesses.old rows scratch vector.now path.now }
{
    let k = vector.len();
    if k == 0 || costs.len() / k <= rows || known.len() / k < count {
        return scratch;
    }
    if !is_below(costs, rows, scratch.bounded, vector) || compare::meets(known, count, vector) {
        return scratch;
    }
    let entered = table::enter(costs, witnesses, scratch.count, vector, path);
    settle(rows, scratch, entered)
}
