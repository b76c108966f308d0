//! Links between 32 nodes and their weights, held at the limit: how many ways leave a link's two nodes apart, and how many join them.
//! What they count stands in counts' specs/Counting.antt, and the matrix that links by value hold in specs/Weights.antt.
#![tactic(auto)]

ghost use Rattle.std.specs.Prelude.{◌≡◌, ◌*◌, ◌+◌, ◌<◌, min, replicate};
ghost use Rattle.counts.specs.Counting.{behind, beside};
ghost use Rattle.counts.specs.Matrix.{Agree, add_held, held, limit};
ghost use Rattle.counts.specs.States.{empty};
ghost use Rattle.weights.specs.Weights.{add_to, added_to, matrix_in, place_of_pair, weight_in};

/// Where every number is held: one more than the greatest count that is answered.
pub const LIMIT: u32 = 4_000_000_001;

/// A product, held.
pub fn times(a: u32, b: u32) -> u32
    ensures { result ≡ min limit (a * b) }
{
    a.saturating_mul(b).min(LIMIT)
}

/// A sum, held.
pub fn plus(a: u32, b: u32) -> u32
    ensures { result ≡ min limit (a + b) }
{
    a.saturating_add(b).min(LIMIT)
}

/// How many ways leave two nodes apart, and how many join them.
#[derive(Clone, Copy, Debug, PartialEq, Eq)]
pub struct Weight {
    pub dropped: u32,
    pub merged: u32,
}

impl Weight {
    /// The weight of two nodes that nothing joins.
    pub const ABSENT: Weight = Weight {
        dropped: 1,
        merged: 0,
    };

    /// Two links between the same nodes, as one.
    pub fn beside(self, other: Weight) -> Weight
        ensures { weight_in result ≡ held limit (beside (weight_in self) (weight_in other)) }
    {
        Weight {
            dropped: times(self.dropped, other.dropped),
            merged: plus(
                times(self.dropped, other.merged),
                times(self.merged, other.dropped),
            ),
        }
    }

    /// Two links one after the other, as one between their outer ends.
    pub fn behind(self, next: Weight) -> Weight
        ensures { weight_in result ≡ held limit (behind (weight_in self) (weight_in next)) }
    {
        Weight {
            dropped: plus(
                times(self.merged, next.dropped),
                times(self.dropped, next.merged),
            ),
            merged: times(self.merged, next.merged),
        }
    }
}

// The place of the link between two nodes.
fn place(x: usize, y: usize) -> usize
    requires { (x < 32) × (y < 32) }
    ensures { (result ≡ place_of_pair x y) × (result < 1024) }
{
    if x < y { y * 32 + x } else { x * 32 + y }
}

/// The weights of the links between 32 nodes: that of nodes a > b stands at a * 32 + b.
#[derive(Clone, Copy)]
pub struct Links {
    pub weights: [Weight; 1024],
}

impl Links {
    /// Nothing joins any two nodes.
    pub fn none() -> Links
        ensures words { result.weights ≡ replicate 1024 (record { dropped = 1; merged = 0 }) }
        ensures absent { Agree (matrix_in result.weights) empty 32 }
    {
        Links {
            weights: [Weight::ABSENT; 1024],
        }
    }

    /// One more link between two nodes, beside what joins them already. There are no nodes from 32 on, and so no links of theirs.
    pub fn add(&mut self, x: usize, y: usize, weight: Weight)
        ensures stored { self.new.weights ≡ add_to self.old.weights x y (weight_in weight) }
        ensures added { x < 32 → y < 32 → ¬ (x ≡ y) → Agree (matrix_in self.new.weights) (add_held limit (matrix_in self.old.weights) x y (weight_in weight)) 32 }
    {
        add(&mut self.weights, x, y, weight);
    }
}

/// One more link between two of 32 nodes, beside what joins them already, in weights of any number. Places behind the first 1,024 stay as they are, and so do fewer than these.
pub fn add(weights: &mut [Weight], x: usize, y: usize, weight: Weight)
    ensures { weights.new ≡ added_to weights.old x y (weight_in weight) }
{
    if 1024 <= weights.len() && x < 32 && y < 32 {
        let at = place(x, y);
        weights[at] = weights[at].beside(weight);
    }
}
