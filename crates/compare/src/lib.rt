//! Vectors of costs compared: whether no component is larger, the order, dominance by cases, and whether a row of a table meets a vector.
#![tactic(auto)]

ghost use Rattle.std.specs.Prelude.{◌≡◌, leb};
ghost use Rattle.std.specs.List.{list_all, zip};
ghost use Rattle.costs.specs.Cases.{next_case};
ghost use Rattle.costs.specs.Costs.{dominates as dominates_of, none_larger, vector_less};
ghost use Rattle.compare.specs.Answers.{case_of};
ghost use Rattle.compare.specs.Compare.{met_in};

use std::cmp::Ordering;

// Whether each component of v is at most the one beside it in w.
fn each_at_most(v: &[u32], w: &[u32]) -> bool
    ensures { result ≡ list_all (λ p. leb p.0 p.1) (zip v.now w.now) }
{
    v.iter().zip(w).all(|(x, y)| *x <= *y)
}

/// Whether no component of v is larger than that of w; false for vectors of different lengths.
#[tactic(auto, using(crate::proofs::Compare::none_larger_each, crate::proofs::Compare::none_unequal))]
pub fn none_larger(v: &[u32], w: &[u32]) -> bool
    ensures { result ≡ none_larger v.now w.now }
{
    v.len() == w.len() && each_at_most(v, w)
}

/// Whether v is less than w by the first component that differs; what is at an end is less.
#[tactic(auto, using(crate::proofs::Compare::less_is))]
pub fn less(v: &[u32], w: &[u32]) -> bool
    ensures { result ≡ vector_less v.now w.now }
{
    v < w
}

// How v compares with w in its first components: one of them is larger; all are equal; none is larger, and one is smaller.
#[derive(Clone, Copy, Debug, PartialEq, Eq)]
enum Comparison {
    WorseSomewhere,
    SoFarEqual,
    SoFarBetter,
}

// The case with one component more, x of v and y of w.
fn next_case(case: Comparison, x: u32, y: u32) -> Comparison
    ensures { case_of result ≡ next_case (case_of case) x y }
{
    match (case, x.cmp(&y)) {
        (Comparison::WorseSomewhere, _) | (_, Ordering::Greater) => Comparison::WorseSomewhere,
        (_, Ordering::Less) => Comparison::SoFarBetter,
        (_, Ordering::Equal) => case,
    }
}

/// Whether no component of v is larger than that of w, and some is smaller; false for vectors of different lengths.
#[tactic(auto, using(costs::proofs::Cases::dominates_unequal, crate::proofs::Compare::case_more), unfolding(costs::specs::Cases::case_after))]
pub fn dominates(v: &[u32], w: &[u32]) -> bool
    ensures { result ≡ dominates_of v.now w.now }
{
    if v.len() != w.len() {
        return false;
    }
    let mut case = Comparison::SoFarEqual;
    for i in 0..v.len() {
        case = next_case(case, v[i], w[i]);
    }
    case == Comparison::SoFarBetter
}

/// Whether one of the first `count` rows of a table, each as wide as the vector, equals or dominates it; a row that the table ends before does not.
pub fn meets(costs: &[u32], count: usize, vector: &[u32]) -> bool
    ensures { result ≡ met_in costs.now count vector.now }
{
    let mut left = costs;
    for _ in 0..count {
        let Some((row, behind)) = left.split_at_checked(vector.len()) else {
            return false;
        };
        if none_larger(row, vector) {
            return true;
        }
        left = behind;
    }
    false
}
