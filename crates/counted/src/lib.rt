//! Counting by dropping and by merging: the count of a network whose links' weights stand in a table, held at the limit.
//! The last node is taken away: merged along each of its links in turn, which is then dropped, until one or two are left.
//! Before a node is merged its network is copied to the level below; there is one for each node.
//! The links and their last node are passed side by side: the node falls with each call and the links stay, so a struct of both would be made anew at each.
#![tactic(auto)]

ghost use Rattle.std.specs.Prelude.{◌≡◌, ◌*◌, ◌+◌, ◌<◌, ◌≤◌, ℕ, min, suc, length, IfSome, MatchOption, not, ◌==◌};
ghost use Rattle.std.specs.List.{position};
ghost use Rattle.counts.specs.Counting.{behind};
ghost use Rattle.counts.specs.Matrix.{Agree, add_held, held, held_total, limit, move_held};
ghost use Rattle.weights.specs.Weights.{matrix_in, weight_at};
ghost use Rattle.counted.specs.Counted.{Clear, Clearing, FirstLink, NoLink};

use weights::{LIMIT, Links, Weight};

// The links of v that cannot be merged dropped; the factor with these.
fn cleared(links: &mut Links, v: usize, f: u32) -> u32
    requires { v < 32 }
    ensures { Clearing links.old.weights v f links.new.weights result v }
{
    let mut g = f;
    for link in &mut links.weights[v * 32..v * 32 + v] {
        if link.merged == 0 {
            g = weights::times(g, link.dropped);
            link.dropped = 1;
        }
    }
    g
}

// The first of the links that can be merged.
fn first_merged(links: &[Weight]) -> Option<usize>
    ensures { result ≡ position (λ link. not (link.merged == 0)) links.now }
{
    links.iter().position(|link| link.merged != 0)
}

// The first link of node v from node `from` on.
fn link_from(links: &Links, v: usize, from: usize) -> Option<usize>
    requires { (from ≤ v) × (v < 32) }
    ensures { MatchOption result (NoLink (matrix_in links.now.weights) v from v) (λ x. FirstLink (matrix_in links.now.weights) v from x) }
{
    let row = v * 32;
    let passed = first_merged(&links.weights[row + from..row + v])?;
    Some(from + passed)
}

// The first node to which a link of v cannot be dropped.
fn must_link(links: &Links, v: usize) -> Option<usize>
    requires { v < 32 }
    ensures { IfSome result (λ x. (x < v) × ((matrix_in links.now.weights v x).dropped ≡ 0)) }
{
    links.weights[v * 32..v * 32 + v]
        .iter()
        .position(|link| link.dropped == 0)
}

// Node a's links to the nodes below it, copied to the level below.
fn row_copied(links: &Links, next: &mut Links, a: usize)
    requires { a < 32 }
    ensures row { (b : ℕ) → b < a → weight_at next.new.weights (a * 32 + b) ≡ weight_at links.now.weights (a * 32 + b) }
    ensures before { (i : ℕ) → i < a * 32 → weight_at next.new.weights i ≡ weight_at next.old.weights i }
{
    // By elements: a copy of the whole part would ask memmove of a C program that links the library.
    for b in 0..a {
        next.weights[a * 32 + b] = links.weights[a * 32 + b];
    }
}

// The links of the first v + 1 nodes, copied to the level below. Not inlined: within the counting its loop takes registers that the counting needs.
#[inline(never)]
fn copied(links: &Links, next: &mut Links, v: usize)
    requires { v < 32 }
    ensures { Agree (matrix_in next.new.weights) (matrix_in links.now.weights) (suc v) }
{
    for a in 0..v + 1 {
        row_copied(links, next, a);
    }
}

// Node v's links moved to x.
fn moved(links: &mut Links, v: usize, x: usize)
    requires { (x < v) × (v < 32) }
    ensures { Agree (matrix_in links.new.weights) (move_held limit (matrix_in links.old.weights) v x 0 v) (suc v) }
{
    for y in 0..v {
        if y != x {
            links.add(x, y, links.weights[v * 32 + y]);
        }
    }
}

// The links of v to x and y, one after the other, as a link between x and y.
fn chained(links: &mut Links, v: usize, x: usize, y: usize)
    requires { (x < v) × (y < v) × (¬ (x ≡ y)) × (v < 32) }
    ensures { Agree (matrix_in links.new.weights)
        (add_held limit (matrix_in links.old.weights) x y
        (held limit (behind (matrix_in links.old.weights v x) (matrix_in links.old.weights v y)))) 32 }
{
    let one = links.weights[v * 32 + x];
    let other = links.weights[v * 32 + y];
    links.add(x, y, one.behind(other));
}

// The count by merging: the last node v into x, to which its link is dropped already. It is made in the level below.
#[cycle(by_links_dropping_merging)]
fn merging(links: &Links, below: &mut [Links], v: usize, x: usize, f: u32, so: u32) -> u32
    requires { (x < v) × (v < 32) × (so ≤ limit) × (v ≤ length below.old) }
    ensures { (result ≡ held_total limit so f (move_held limit (matrix_in links.now.weights) v x 0 v) v) × (result ≤ limit) }
{
    let (next, rest) = below.split_first_mut().unwrap();
    copied(links, next, v);
    moved(next, v, x);
    dropping(next, rest, v, f, so)
}

// The links of the last node v, one after the other. Those that cannot be merged are absent.
#[cycle(by_links_dropping_merging)]
fn by_links(links: &mut Links, below: &mut [Links], v: usize, f: u32, so: u32) -> u32
    requires { (1 ≤ v) × (v < 32) × (so ≤ limit) × (v ≤ length below.old) × Clear (matrix_in links.old.weights) v v }
    ensures { (result ≡ held_total limit so f (matrix_in links.old.weights) (suc v)) × (result ≤ limit) }
{
    let mut g = f;
    let mut s = so;
    let mut from = 0;
    while let Some(x) = link_from(links, v, from) {
        let at = v * 32 + x;
        let first = links.weights[at];
        let Some(y) = link_from(links, v, x + 1) else {
            return dropping(links, below, v, weights::times(g, first.merged), s);
        };
        let Some(_) = link_from(links, v, y + 1) else {
            chained(links, v, x, y);
            return dropping(links, below, v, g, s);
        };
        links.weights[at] = Weight::ABSENT;
        s = merging(links, below, v, x, weights::times(g, first.merged), s);
        g = weights::times(g, first.dropped);
        from = x + 1;
    }
    s
}

// The count by dropping: what was counted so far, and f times the count of the first k nodes. There is a level for each of them.
#[cycle(by_links_dropping_merging)]
fn dropping(links: &mut Links, below: &mut [Links], k: usize, f: u32, so: u32) -> u32
    requires { (1 ≤ k) × (k ≤ 32) × (so ≤ limit) × (k ≤ suc (length below.old)) }
    ensures { (result ≡ held_total limit so f (matrix_in links.old.weights) k) × (result ≤ limit) }
{
    if so == LIMIT || f == 0 {
        return so;
    }
    if k == 1 {
        return weights::plus(so, f);
    }
    if k == 2 {
        return weights::plus(so, weights::times(f, links.weights[32].merged));
    }
    let v = k - 1;
    let g = cleared(links, v, f);
    let Some(x) = must_link(links, v) else {
        return by_links(links, below, v, g, so);
    };
    // a link that cannot be dropped: the node is only merged along it
    let at = v * 32 + x;
    let q = links.weights[at].merged;
    links.weights[at] = Weight::ABSENT;
    moved(links, v, x);
    dropping(links, below, v, weights::times(g, q), so)
}

/// The count of the first k nodes, of at most 32, held at the limit.
pub fn counted(links: Links, k: usize) -> u32
    ensures { result ≡ held_total limit 0 1 (matrix_in links.weights) (min k 32) }
{
    if k == 0 {
        return 0;
    }
    let mut first = links;
    let mut below = [links; 31];
    dropping(&mut first, &mut below, k.min(32), 1, 0)
}
