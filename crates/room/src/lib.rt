//! What the limits leave for the rows that are missing, mixed by the factors that mix their weights, and whether rows weigh more than that.
//! Each function is equal to its definition in specs/Room.antt, on every input.
#![tactic(auto)]

ghost use Rattle.std.specs.Prelude.{◌≡◌, map, ◌*◌, ◌-◌, ◌≤◌, pred, ltb, get_or};
ghost use Rattle.lists.specs.Lists.{pick, sum};
ghost use Rattle.chosen.specs.Chosen.{rows_of};
ghost use Rattle.tally.specs.Kinds.{numbers_of};
ghost use Rattle.room.specs.Room.{room_in};

use chosen::Chosen;
use tally::Criteria;

// What is left of a limit.
fn left_of(limit: u64, paid: u64, factor: u16) -> u64
    ensures { (result ≡ ((pred limit - paid) * 840) * pick (ltb limit 4294967296) factor 0) × (result ≤ 288230376151711744) }
{
    if limit < 4294967296 {
        limit.saturating_sub(1).saturating_sub(paid) * 840 * factor as u64
    } else {
        0
    }
}

/// What the limits leave for the rows that are missing, mixed by the same factors.
pub fn room(criteria: Criteria<'_>, limits: [u64; 4], inc: Chosen, factors: [u16; 4]) -> u64
    ensures { result ≡ room_in (numbers_of criteria.entry.kinds) criteria.entry.k criteria.entry.costs.now criteria.entry.leads.now limits (rows_of inc) factors }
{
    let mut sum = 0;
    for c in (0..criteria.count()).rev() {
        let at = c as usize;
        sum += left_of(limits[at], criteria.cost_of(c, inc), factors[at]);
    }
    sum
}

/// Whether the rows weigh more than the room.
pub fn exceed(weights: &[u64], room: u64, rows: Chosen) -> bool
    ensures { result ≡ ltb room (sum (map (λ row. get_or weights.now row 0) (rows_of rows))) }
{
    let weight: u128 = rows
        .rows()
        .iter()
        .map(|&row| slices::at(weights, row as usize, 0) as u128)
        .sum();
    (room as u128) < weight
}
