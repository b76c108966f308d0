//! Least: the least cost vector of the trees with all must rows that no known vector meets. A vector found in a box is lowered in one component after the
//! other, each as far as trees are found; the boxes leave out what the known vectors meet in their components from 1 on.
#![tactic(auto)]

ghost use Rattle.std.specs.Prelude.{◌≡◌, ◌<◌, MatchOption, min, suc, T, get_or, set};
ghost use Rattle.costs.specs.Costs.{vector_less};
ghost use Rattle.completions.specs.Boxes.{inside};
ghost use Rattle.completions.proofs.Least.{Asked, Box, LeastIn, Lowered, Lowest, Open, Region};
ghost use Rattle.least.specs.Least.{Nearest, NoneInside, inside_at, known_rows, least_of};
ghost use Rattle.least.specs.Trees.{OnTrees, count_of, first_of};

use chosen::Chosen;
use find::Space;

/// The trees of a space that have all must rows; `free` flags the other rows that lie between nodes.
#[derive(Clone, Copy)]
pub struct Trees<'a> {
    pub space: Space<'a>,
    pub musts: Chosen,
    pub free: [u8; 256],
}

// The limits with another limit of component c.
fn with_limit(limits: [u64; 4], c: usize, x: u64) -> [u64; 4]
    ensures { result ≡ set limits c x }
{
    let mut next = limits;
    if c < 4 {
        next[c] = x;
    }
    next
}

// One more, but no more than the limit.
fn above(x: u64, limit: u64) -> u64
    ensures { result ≡ min limit (suc x) }
{
    limit.min(x.saturating_add(1))
}

// Component c of a known vector; 0 past its last one.
fn component(row: &[u32], c: usize) -> u64
    ensures { result ≡ get_or row.now c 0 }
{
    u64::from(slices::at(row, c, 0))
}

// Whether a known vector is inside the limits in its components from 1 on.
#[tactic(auto, unfolding(crate::specs::Least::inside_at))]
fn is_inside(row: &[u32], limits: [u64; 4]) -> bool
    ensures { result ≡ inside_at row.now limits }
{
    component(row, 1) < limits[1] && component(row, 2) < limits[2] && component(row, 3) < limits[3]
}

// The known vector that is inside, with the least component 1.
fn nearest(known: &[u32], k: u8, limits: [u64; 4]) -> Option<&[u32]>
    ensures { MatchOption result (NoneInside (known_rows k known.now) limits) (λ row. Nearest (known_rows k known.now) limits row.now) }
{
    if k == 0 {
        return None;
    }
    let rows = known.chunks_exact(k as usize);
    rows.filter(|row| is_inside(row, limits))
        .min_by_key(|row| component(row, 1))
}

impl Trees<'_> {
    // The vector of a tree inside the limits.
    fn vector_in(self, limits: [u64; 4]) -> Option<[u64; 4]>
        ensures { OnTrees self.entry limits (λ Of. Asked Of (first_of self.entry limits) (least_of (count_of self.entry) result)) }
    {
        let rows = self.space.find(limits, self.musts, self.free)?;
        Some(self.space.criteria.vector(rows))
    }

    // The vector lowered in component c as far as trees are found inside the limits.
    fn lowered(&self, limits: [u64; 4], start: [u64; 4], c: usize) -> [u64; 4]
        ensures { OnTrees self.now limits (λ Of. (c < count_of self.now → Of (first_of self.now start) → T (inside (first_of self.now limits) (first_of self.now start))
            → Lowest Of (first_of self.now limits) c (first_of self.now result))) }
    {
        let mut v = start;
        if 4 <= c {
            return v;
        }
        while let Some(w) = self.vector_in(with_limit(limits, c, v[c])) {
            // a tree inside the limits is below v here, so that the test never holds
            if v[c] <= w[c] {
                return v;
            }
            v = w;
        }
        v
    }

    // The least vector inside the limits.
    fn least_inside(&self, limits: [u64; 4]) -> Option<[u64; 4]>
        ensures { OnTrees self.now limits (λ Of. LeastIn Of (first_of self.now limits) (least_of (count_of self.now) result)) }
    {
        let mut v = self.vector_in(limits)?;
        let mut lower = limits;
        for c in 0..self.space.criteria.count() as usize {
            v = self.lowered(lower, v, c);
            lower[c] = above(v[c], lower[c]);
        }
        Some(v)
    }

    // Whether a comes before b, by the first component that differs.
    fn is_less(&self, a: [u64; 4], b: [u64; 4]) -> bool
        ensures { result ≡ vector_less (first_of self.now a) (first_of self.now b) }
    {
        let n = self.space.criteria.count() as usize;
        a[..n] < b[..n]
    }

    // The lesser of the best vector so far and the least inside the limits.
    fn lesser(&self, limits: [u64; 4], best: Option<[u64; 4]>) -> Option<[u64; 4]>
        ensures { OnTrees self.now limits
            (λ Of. Lowered Of (Box (first_of self.now limits)) (Box (first_of self.now limits)) (least_of (count_of self.now) best) (least_of (count_of self.now) result)) }
    {
        let Some(v) = best else {
            return self.least_inside(limits);
        };
        let top = above(v[0], limits[0]);
        let next = self.least_inside(with_limit(limits, 0, top));
        let Some(w) = next else {
            return best;
        };
        if self.is_less(w, v) { next } else { best }
    }

    /// The lesser of the best vector so far and the least inside the limits that no known vector meets in its components from 1 on, of those that are nowhere
    /// below `from`: what is below it has been searched already.
    pub fn least(
        &self,
        known: &[u32],
        limits: [u64; 4],
        from: [u64; 4],
        start: Option<[u64; 4]>,
    ) -> Option<[u64; 4]>
        ensures { OnTrees self.now limits
            (λ Of. Lowered Of
            (Open (known_rows (count_of self.now) known.now) (first_of self.now limits))
            (Region (known_rows (count_of self.now) known.now) from (first_of self.now limits))
            (least_of (count_of self.now) start) (least_of (count_of self.now) result)) }
    {
        let k = self.space.criteria.k;
        let mut best = start;
        let mut lows = from;
        let mut lower = limits;
        loop {
            let Some(row) = nearest(known, k, lower) else {
                return self.lesser(lower, best);
            };
            if k < 2 {
                return best;
            }
            let one = component(row, 1);
            if lows[1] < one {
                best = self.lesser(with_limit(lower, 1, one), best);
                lows[1] = one;
            }
            if k < 3 {
                return best;
            }
            let three = component(row, 3);
            let part = with_limit(lower, 3, three);
            lower[2] = component(row, 2);
            if three <= lows[3] {
                continue;
            }
            best = self.least(known, part, lows, best);
            lows[3] = three;
        }
    }
}
