//! Branches of the list: whether one that begins with the first steps of a path has a tree inside limits, of those with all must rows.
//! `heads` are the first ends of the must rows, 0 for every other row.
#![tactic(auto)]

ghost use Rattle.std.specs.Prelude.{◌≡◌, not, List, ◌-◌, ◌<◌, ℕ, eqb, ltb, get_or, take};
ghost use Rattle.lists.specs.Lists.{either, member, range};
ghost use Rattle.lists.proofs.Members.{◌∈◌};
ghost use Rattle.paths.specs.Path.{entered_by, keys_of, plant_of, rows_in};
ghost use Rattle.chosen.specs.Chosen.{rows_of};
ghost use Rattle.find.specs.Space.{cut_to, graph_of, network_of};
ghost use Rattle.branch.specs.Branch.{Asked, Tells, comes_by, entry_of, flag_by, flags_of, standing_of, step_follows};

use chosen::Chosen;
use find::Space;
use labels::Ends;
use paths::Path;
use std::array;

// Of each node the place at which a path enters it, plus 1; 0 where it does not.
fn entries_of(path: Path) -> [u8; 256]
    ensures { (v : ℕ) → v < 256 → get_or result v 0 ≡ entry_of (entered_by (plant_of path) (keys_of path)) v }
{
    let mut entries = [0u8; 256];
    for i in (0..path.length() + 1).rev() {
        let node = path.entered_at(i);
        entries[node as usize] = i as u8 + 1;
    }
    entries
}

// Whether a number is a node.
fn is_node(v: u8, limit: u8) -> bool
    ensures { result ≡ member v (range 1 limit) }
{
    (1..=limit).contains(&v)
}

// Whether a step from place `at` to node v may come behind one from `place` to `last`.
fn follows(place: u8, last: u8, at: u8, v: u8) -> bool
    ensures { result ≡ step_follows place last at v }
{
    (place, last) < (at, v)
}

// Whether a row may come: its ends a and b, which are entered at `first` - 1 and `second` - 1 or not at all, behind a step from `place` to `last`.
#[tactic(auto, unfolding(crate::specs::Branch::comes_by))]
fn may_come(limit: u8, a: u8, b: u8, first: u8, second: u8, place: u8, last: u8) -> bool
    ensures { result ≡ comes_by limit a b first second place last }
{
    if !is_node(a, limit) || !is_node(b, limit) {
        return false;
    }
    match (first, second) {
        (0, 0) => true,
        (0, _) => follows(place, last, second - 1, a),
        (_, 0) => follows(place, last, first - 1, b),
        _ => false,
    }
}

// The flag of a row: 1 where it is no must row and may come.
fn flag_of(head: u8, comes: bool) -> u8
    ensures { result ≡ flag_by head comes }
{
    u8::from(head == 0 && comes)
}

// The rows that are no must rows and may come behind a path.
fn coming(ends: Ends<'_>, heads: &[u8], limit: u8, path: Path) -> [u8; 256]
    ensures { result ≡ flags_of ends.entry.firsts.now ends.entry.seconds.now heads.now limit (plant_of path) (keys_of path) }
{
    let entries = entries_of(path);
    let end = path.length().saturating_sub(1);
    let place = path.pivot_at(end);
    let last = path.node_at(end);
    array::from_fn(|r| {
        let a = slices::at(ends.firsts, r, 0);
        let b = slices::at(ends.seconds, r, 0);
        let comes = may_come(
            limit,
            a,
            b,
            entries[a as usize],
            entries[b as usize],
            place,
            last,
        );
        flag_of(slices::at(heads, r, 0), comes)
    })
}

// Whether the row at a place is in: it is one of the first, so many, or a must row.
fn stands(head: u8, at: usize, len: usize) -> bool
    ensures { result ≡ either (ltb at len) (not (eqb head 0)) }
{
    at < len || head != 0
}

// The first rows of a path, so many, and behind them its must rows.
fn standing(heads: &[u8], path: Path, len: usize) -> Chosen
    ensures { ((r : ℕ) → r ∈ rows_in path → r < 256) → rows_of result ≡ standing_of heads.now len (rows_in path) }
{
    let mut rows = Chosen::empty();
    for i in 0..path.length() {
        let row = path.row_at(i);
        if stands(slices::at(heads, row as usize, 0), i, len) {
            rows = rows.extended((row % 256) as u8);
        }
    }
    rows
}

/// Whether a path with all must rows whose tree is inside the limits begins with the first steps of a path, so many.
pub fn opens(space: Space<'_>, heads: &[u8], limits: [u64; 4], path: Path, len: usize) -> bool
    ensures { (musts : List ℕ)
        → Asked space.entry.ends.firsts.now space.entry.ends.seconds.now heads.now space.entry.limit space.entry.criteria.k limits path musts
        → Tells (graph_of space.entry) (network_of space.entry) musts (cut_to space.entry limits) (take len (rows_in path)) result }
{
    let rows = standing(heads, path, len);
    let free = coming(space.ends, heads, space.limit, path.shortened(len));
    space.find(limits, rows, free).is_some()
}
