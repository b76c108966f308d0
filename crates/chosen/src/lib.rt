//! Rows that are chosen, by value and in their sequence: at most 31, as many as a spanning tree of 32 nodes has.
//! specs/Chosen.antt says which list they are, and which rows an array of flags has.
#![tactic(auto)]

ghost use Rattle.std.specs.Prelude.{◌≤◌};

mod rows;

/// Rows in a sequence.
// No heap: an array, and how many of its places are taken.
#[derive(Clone, Copy)]
pub struct Chosen {
    rows: [u8; 31],
    len: usize,
    pub ghost few: { len ≤ 31 },
}
