//! Find: a spanning tree whose cost vector is inside limits, by a search over rows that are in or out, in free order.
//! A node of the search is the rows that are in and the usable rows. It is settled by the lightest choice among the usable rows, for a sum of the criteria with factors,
//! or else split at a row of that choice: first in, by recursion, then out, in the loop. The factors are tuned from choice to choice; any would do.
//! Which tree is found is left open; that one is found exactly if there is one is not.
#![tactic(auto)]

ghost use Rattle.std.specs.Prelude.{◌≡◌, ◌∷◌, ◌+◌, ◌-◌, ◌<◌, ◌≤◌, suc, ℕ, leb, true, get_or, length, take};
ghost use Rattle.lists.specs.Lists.{pick};
ghost use Rattle.lists.proofs.Members.{◌∈◌};
ghost use Rattle.completions.specs.Labels.{choose_few};
ghost use Rattle.completions.proofs.Find.{Answers};
ghost use Rattle.chosen.specs.Chosen.{rows_of, rows_on};
ghost use Rattle.tally.specs.Kinds.{numbers_of};
ghost use Rattle.tally.specs.Tally.{cost_in, kind_cost, lead_in};
ghost use Rattle.find.specs.Find.{Node, found_of, graph_in};
ghost use Rattle.find.specs.Space.{Formed, cut_to, graph_of, network_of};
ghost use Rattle.find.specs.Nodes.{Given, Judges, Reached, Settles, Sifted, Usable, rows_by};

use chosen::Chosen;
use fields::Kind;
use labels::Ends;
use std::array;
use tally::Criteria;

/// What a search is over: the ends of the rows of a graph, its nodes, from 1 to the limit, and the criteria that measure its trees.
#[derive(Clone, Copy, Debug, PartialEq, Eq)]
pub struct Space<'a> {
    pub ends: Ends<'a>,
    pub limit: u8,
    pub criteria: Criteria<'a>,
}

// What the lightest choice says of a node.
#[derive(Clone, Copy)]
enum Judged {
    // No tree of it is inside the limits.
    Closed,
    // These rows are a tree inside the limits.
    Tree(Chosen),
    // Neither: the node is to be split at a row of this choice, and these are the factors for the next one.
    Open(Chosen, [u16; 4]),
}

// Whether a cost added to what is there reaches the limit.
fn reaches(limit: u64, base: u64, cost: u32) -> bool
    ensures { result ≡ leb limit (base + cost) }
{
    limit.saturating_sub(u64::from(cost)) <= base
}

// The flags without those of the first rows, so many, that pass a test.
fn without<F: Fn(u8) -> bool>(rows: usize, passes: F, flags: [u8; 256]) -> [u8; 256]
    requires { F.IsAlwaysCallable passes }
    ensures { Sifted (λ (r : ℕ). F.post passes r true) flags result }
{
    let mut next = flags;
    for r in 0..rows.min(256) {
        if passes(r as u8) {
            next[r] = 0;
        }
    }
    next
}

// What a row adds to the days that are paid.
fn more_days(criteria: Criteria<'_>, c: u8, days: &[u32; 256], row: u8) -> u32
    ensures more { result ≡ cost_in criteria.entry.costs.now c row - get_or days.now (lead_in criteria.entry.leads.now row) 0 }
    ensures lead { lead_in criteria.entry.leads.now row < 256 }
{
    let lead = criteria.lead_of(row) as usize;
    criteria.cost_at(c, row).saturating_sub(days[lead])
}

// The limit where the rows that are in reach it by themselves, so that every row does beside them; else 0.
fn already(limit: u64, worst: u32) -> u64
    ensures { result ≡ pick (leb limit worst) limit 0 }
{
    if limit <= worst as u64 { limit } else { 0 }
}

// Without the rows that reach the limit of a criterion beside the rows that are in.
fn keep(
    criteria: Criteria<'_>,
    c: u8,
    rows: usize,
    limit: u64,
    inc: Chosen,
    flags: [u8; 256],
) -> [u8; 256]
    ensures { Sifted
        (λ (r : ℕ). limit ≤ kind_cost (get_or (numbers_of criteria.entry.kinds) c 0) criteria.entry.costs.now criteria.entry.leads.now c (r ∷ rows_of inc))
        flags result }
{
    match criteria.kind_at(c) {
        Kind::Added => {
            let base = criteria.added(c, inc);
            without(
                rows,
                |r| reaches(limit, base, criteria.cost_at(c, r)),
                flags,
            )
        }
        Kind::Worst => {
            let base = already(limit, criteria.worst(c, inc));
            without(
                rows,
                |r| reaches(limit, base, criteria.cost_at(c, r)),
                flags,
            )
        }
        Kind::Closing => {
            let paid = criteria.paid_of(c, inc);
            let base = paid.sum;
            let days = paid.days;
            without(
                rows,
                |r| reaches(limit, base, more_days(criteria, c, &days, r)),
                flags,
            )
        }
    }
}

// The usable rows that may be added: with the rows that are in they reach no limit.
fn fitting(
    criteria: Criteria<'_>,
    rows: usize,
    limits: [u64; 4],
    inc: Chosen,
    usable: [u8; 256],
) -> [u8; 256]
    ensures { Sifted
        (λ (r : ℕ). Reached (numbers_of criteria.entry.kinds) criteria.entry.k criteria.entry.costs.now criteria.entry.leads.now limits (r ∷ rows_of inc))
        usable result }
{
    let mut next = usable;
    for c in 0..criteria.count() {
        let kept = keep(criteria, c, rows, limits[c as usize], inc, next);
        next = kept;
    }
    next
}

// How many rows are missing.
fn missing(limit: u8, inc: Chosen) -> usize
    ensures { result ≡ limit - suc (length (rows_of inc)) }
{
    (limit as usize).saturating_sub(inc.count() + 1)
}

// The lightest choice: greedy among the usable rows by their weights.
fn lightest(ends: Ends<'_>, weights: &[u64], flags: &[u8], need: usize, labels: [u8; 33]) -> Chosen
    ensures { rows_of result ≡ take 31 (choose_few ends.entry.firsts.now ends.entry.seconds.now need labels (rows_by weights.now flags.now)) }
{
    let order = orders::sorted(weights, flags);
    ends.choose(order.rows(), flags, need, labels)
}

// The next factor of a criterion: beside the others it is doubled, as far as it goes, if the last choice reaches its limit.
fn tuned_factor(factor: u16, reached: bool, large: bool) -> u16 {
    match (reached, large) {
        (true, false) => factor.saturating_mul(2),
        // one that counts goes on counting
        (false, true) => factor.min(1).max(factor / 2),
        _ => factor,
    }
}

// The factors for the next choice, once the last one costs v.
fn tuned(limits: [u64; 4], v: [u64; 4], factors: [u16; 4]) -> [u16; 4] {
    let large = factors.iter().any(|factor| 32767 < *factor);
    array::from_fn(|c| tuned_factor(factors[c], limits[c] <= v[c], large))
}

// What a whole choice that is not too heavy says: it is a tree inside the limits, or it is not.
fn settled(
    criteria: Criteria<'_>,
    limits: [u64; 4],
    inc: Chosen,
    chosen: Chosen,
    factors: [u16; 4],
) -> Judged
    ensures { Settles (numbers_of criteria.entry.kinds) criteria.entry.k criteria.entry.costs.now criteria.entry.leads.now limits (rows_of inc) (rows_of chosen) result }
{
    let all = inc.joined(chosen);
    let v = criteria.vector(all);
    if tally::inside(limits, v) {
        Judged::Tree(all)
    } else {
        Judged::Open(chosen, tuned(limits, v, factors))
    }
}

// The first closing criterion.
fn first_closing(criteria: Criteria<'_>) -> Option<u8> {
    (0..criteria.count()).find(|c| criteria.kind_at(*c) == Kind::Closing)
}

// The first of the rows with the highest score.
fn highest<F: Fn(u8) -> (u32, u32)>(rows: Chosen, score: F) -> u8
    requires { F.IsAlwaysCallable score }
    ensures { 0 < length (rows_of rows) → result ∈ rows_of rows }
{
    let mut best = rows.row_at(0);
    let mut most = (0, 0);
    for &row in rows.rows() {
        let here = score(row);
        if most < here {
            best = row;
            most = here;
        }
    }
    best
}

// The row to split at: one that adds most days, and then one that costs most.
fn pivot(criteria: Criteria<'_>, inc: Chosen, rows: Chosen) -> u8
    ensures { 0 < length (rows_of rows) → result ∈ rows_of rows }
{
    match first_closing(criteria) {
        Some(c) => {
            let paid = criteria.paid_of(c, inc);
            let days = paid.days;
            highest(
                rows,
                |row| (more_days(criteria, c, &days, row), criteria.cost_at(0, row)),
            )
        }
        None => highest(rows, |row| (0, criteria.cost_at(0, row))),
    }
}

// No limit of a search is larger than this one, which no tree reaches.
const TOP: u64 = 33554432;

// The first factor of a criterion that adds up: the smaller its limit beside the least one, the larger; none where only others have a limit.
fn first_factor(least: u64, limit: u64) -> u16 {
    if TOP <= least {
        return 1;
    }
    if TOP <= limit {
        return 0;
    }
    (20000 * least / (limit + 1)).clamp(1, 65535) as u16
}

// The factors for the first choice of a search.
fn first_factors(criteria: Criteria<'_>, limits: [u64; 4]) -> [u16; 4] {
    let k = criteria.k as usize;
    let kinds = criteria.kinds;
    let adds: [bool; 4] = array::from_fn(|c| c < k && kinds[c] != Kind::Worst);
    let mut least = TOP;
    for (limit, adds) in limits.iter().zip(&adds) {
        if *adds {
            least = least.min(*limit);
        }
    }
    array::from_fn(|c| {
        if adds[c] {
            first_factor(least, limits[c])
        } else {
            0
        }
    })
}

impl Space<'_> {
    // What the lightest choice says.
    fn judge(
        self,
        limits: [u64; 4],
        inc: Chosen,
        flags: &[u8],
        need: usize,
        labels: [u8; 33],
        factors: [u16; 4],
    ) -> Judged
        ensures usable { Usable flags.now need result }
        ensures says { (nodes : ℕ)
            → Given self.entry.ends.firsts.now self.entry.ends.seconds.now nodes self.entry.criteria.k limits (rows_of inc) flags.now need labels
            → Judges (graph_in self.entry.ends.firsts.now self.entry.ends.seconds.now nodes) (network_of self.entry)
            (cut_to self.entry limits) (rows_of inc) (rows_on flags.now) result }
    {
        let criteria = self.criteria;
        let weights = weighing::weights(criteria, limits, inc, flags, factors);
        let chosen = lightest(self.ends, &weights, flags, need, labels);
        if chosen.count() != need {
            return Judged::Closed;
        }
        let left = room::room(criteria, limits, inc, factors);
        if room::exceed(&weights, left, chosen) {
            return Judged::Closed;
        }
        settled(criteria, limits, inc, chosen, factors)
    }

    // The search of a node, with factors for the first choice.
    fn search(
        self,
        limits: [u64; 4],
        inc: Chosen,
        usable: [u8; 256],
        first: [u16; 4],
    ) -> Option<Chosen>
        ensures { Formed self.entry → Node (graph_of self.entry) self.entry.criteria.k limits (rows_of inc) usable
            → Answers (graph_of self.entry) (network_of self.entry) (cut_to self.entry limits) (rows_of inc) (rows_on usable) (found_of result) }
    {
        let labels = self.ends.labels_of(inc);
        let need = missing(self.limit, inc);
        let mut factors = first;
        let mut us = fitting(self.criteria, self.ends.firsts.len(), limits, inc, usable);
        loop {
            let judged = self.judge(limits, inc, &us, need, labels, factors);
            match judged {
                Judged::Closed => return None,
                Judged::Tree(tree) => return Some(tree),
                Judged::Open(choice, next) => {
                    if need == 0 {
                        return None;
                    }
                    factors = next;
                    let at = pivot(self.criteria, inc, choice);
                    us[at as usize] = 0;
                    let taken = self.search(limits, inc.extended(at), us, factors);
                    if taken.is_some() {
                        return taken;
                    }
                }
            }
        }
    }

    /// A tree with the rows `inc` and others of the usable rows, inside the limits, or that there is none.
    pub fn find(self, limits: [u64; 4], inc: Chosen, usable: [u8; 256]) -> Option<Chosen>
        ensures { Formed self.entry → Node (graph_of self.entry) self.entry.criteria.k limits (rows_of inc) usable
            → Answers (graph_of self.entry) (network_of self.entry) (cut_to self.entry limits) (rows_of inc) (rows_on usable) (found_of result) }
    {
        self.search(limits, inc, usable, first_factors(self.criteria, limits))
    }
}
