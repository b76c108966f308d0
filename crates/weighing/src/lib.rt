//! Rows weighed by all criteria that add up, each times a factor. An added criterion weighs by costs, closing by shares: what a row costs above the days that its
//! street has paid, over the number of usable rows that cost more than that. Weights are whole numbers of parts, of which 840 make one.
//! Each function is equal to its definition in specs/Weighing.antt, on every input.
#![tactic(auto)]

ghost use Rattle.std.specs.Prelude.{◌≡◌, ◌*◌, ◌+◌, ◌-◌, ◌<◌, ◌≤◌, ℕ, eqb, ltb, get_or, length};
ghost use Rattle.lists.specs.Lists.{both, filter_b, member, pick};
ghost use Rattle.lists.proofs.Distinct.{Distinct};
ghost use Rattle.chosen.specs.Chosen.{rows_of};
ghost use Rattle.tally.specs.Kinds.{numbers_of};
ghost use Rattle.tally.specs.Tally.{cost_in, lead_in};
ghost use Rattle.weighing.specs.Weighing.{rate_in, share_in, weights_in};

use chosen::Chosen;
use fields::Kind;
use tally::Criteria;

// Of each street, at the place of its first row: the days that are paid, and how many rows share what is paid beyond. Two arrays, since the days come as one.
#[derive(Clone, Copy)]
struct Streets {
    days: [u32; 256],
    sharers: [u16; 256],
}

// How many usable rows of each street cost more than it has paid.
fn sharers_of(criteria: Criteria<'_>, c: u8, days: &[u32; 256], usable: &[u8]) -> [u16; 256]
    requires { length usable.now ≤ 256 }
    ensures { (lead : ℕ) → lead < 256 → get_or result lead 0
        ≡ length (filter_b (λ q. both (eqb (lead_in criteria.entry.leads.now q) lead) (ltb (get_or days.now lead 0) (cost_in criteria.entry.costs.now c q))) usable.now) }
{
    let mut sharers = [0u16; 256];
    for &row in usable {
        let lead = criteria.lead_of(row) as usize;
        if days[lead] < criteria.cost_at(c, row) {
            sharers[lead] += 1;
        }
    }
    sharers
}

// Nothing is to be done: a lead is a byte, and so the number of a row.
fn are_rows(leads: &[u8])
    ensures { (q : ℕ) → lead_in leads.now q < 256 }
{}

// An added criterion has streets that have paid nothing and one row each, the worst has none that share.
fn streets_of(criteria: Criteria<'_>, c: u8, inc: Chosen, usable: &[u8]) -> Streets
    requires { length usable.now ≤ 256 }
    ensures { (q : ℕ)
        → share_in (cost_in criteria.entry.costs.now c q - get_or result.days (lead_in criteria.entry.leads.now q) 0) (get_or result.sharers (lead_in criteria.entry.leads.now q) 0)
        ≡ rate_in (get_or (numbers_of criteria.entry.kinds) c 0) criteria.entry.costs.now criteria.entry.leads.now c (rows_of inc) usable.now q }
{
    are_rows(criteria.leads);
    match criteria.kind_at(c) {
        Kind::Added => Streets {
            days: [0; 256],
            sharers: [1; 256],
        },
        Kind::Worst => Streets {
            days: [0; 256],
            sharers: [0; 256],
        },
        Kind::Closing => {
            let days = criteria.paid_of(c, inc).days;
            Streets {
                days,
                sharers: sharers_of(criteria, c, &days, usable),
            }
        }
    }
}

// One of the even shares of a cost, in parts.
fn share_of(cost: u32, sharers: u16) -> u64
    ensures { (result ≡ share_in cost sharers) × (result ≤ cost * 840) }
{
    let parts = cost as u64 * 840;
    match sharers {
        0 => 0,
        1 => parts,
        _ => parts / sharers as u64,
    }
}

// What a row adds at least.
fn rate_of(criteria: Criteria<'_>, c: u8, streets: &Streets, row: u8) -> u64
    ensures { (result ≡ share_in (cost_in criteria.entry.costs.now c row - get_or streets.now.days (lead_in criteria.entry.leads.now row) 0)
        (get_or streets.now.sharers (lead_in criteria.entry.leads.now row) 0)) × (result ≤ 4294967295 * 840) }
{
    let lead = criteria.lead_of(row) as usize;
    share_of(
        criteria.cost_at(c, row).saturating_sub(streets.days[lead]),
        streets.sharers[lead],
    )
}

// One criterion more is weighed.
fn weigh(
    criteria: Criteria<'_>,
    c: u8,
    streets: &Streets,
    usable: &[u8],
    factor: u16,
    weights: &mut [u64; 256],
)
    requires room { (q : ℕ) → q < 256 → get_or weights.old q 0 ≤ 3 * 288230376151711744 }
    requires once { Distinct usable.now }
    ensures { (q : ℕ) → q < 256 → (get_or weights.new q 0
        ≡ get_or weights.old q 0 + pick (member q usable.now) (share_in (cost_in criteria.entry.costs.now c q - get_or streets.now.days (lead_in criteria.entry.leads.now q) 0)
        (get_or streets.now.sharers (lead_in criteria.entry.leads.now q) 0) * factor) 0)
        × (get_or weights.new q 0 ≤ get_or weights.old q 0 + 288230376151711744) }
{
    for &row in usable {
        weights[row as usize] += rate_of(criteria, c, streets, row) * factor as u64;
    }
}

// A factor; none where the limit is too large to be mixed.
fn factor_at(limit: u64, factor: u16) -> u16
    ensures { result ≡ pick (ltb limit 4294967296) factor 0 }
{
    if limit < 4294967296 { factor } else { 0 }
}

/// The weights of the usable rows, beside the rows that are in; 0 for any other.
pub fn weights(
    criteria: Criteria<'_>,
    limits: [u64; 4],
    inc: Chosen,
    flags: &[u8],
    factors: [u16; 4],
) -> [u64; 256]
    ensures { result ≡ weights_in (numbers_of criteria.entry.kinds) criteria.entry.k criteria.entry.costs.now criteria.entry.leads.now limits (rows_of inc) flags.now factors }
{
    let on = orders::rows_on(flags);
    let usable = on.rows();
    let mut sums = [0u64; 256];
    for c in (0..criteria.count()).rev() {
        let factor = factor_at(limits[c as usize], factors[c as usize]);
        if 0 < factor {
            let streets = streets_of(criteria, c, inc, usable);
            weigh(criteria, c, &streets, usable, factor, &mut sums);
        }
    }
    sums
}
