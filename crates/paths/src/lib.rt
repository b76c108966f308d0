//! A growing path by value: the rows of its steps, the nodes entered by place, and the places of the pivots.
//! specs/Path.antt says which list of keys a path stands for.
#![tactic(auto)]

ghost use Rattle.std.specs.Prelude.{◌≡◌, [], get_or, take};
ghost use Rattle.lists.specs.Lists.{same};
ghost use Rattle.paths.specs.Path.{entered_by, extended_by, keys_of, length_of, no_key, plant_of, rows_in};

/// A path of at most 31 steps; in arrays, of which the first `len` places count, since there is no heap.
#[derive(Clone, Copy, Debug, PartialEq, Eq)]
pub struct Path {
    pub rows: [u16; 31],
    pub nodes: [u8; 32],
    pub pivots: [u8; 31],
    pub len: usize,
}

impl Path {
    /// The path with no step: the plant stands at place 0.
    pub fn start(plant: u8) -> Path
        ensures { (plant_of result ≡ plant) × (keys_of result ≡ []) }
    {
        Path {
            rows: [0; 31],
            nodes: [plant; 32],
            pivots: [0; 31],
            len: 0,
        }
    }

    /// How many steps it has.
    pub fn length(self) -> usize
        ensures { result ≡ length_of self }
    {
        self.len.min(31)
    }

    /// The path with one step more, if there is room.
    pub fn extended(mut self, place: u8, node: u8, row: u16) -> Path
        ensures { (plant_of result ≡ plant_of self) × (keys_of result ≡ extended_by (keys_of self) (record { place = place; node = node; row = row })) }
    {
        let at = self.length();
        if at < 31 {
            self.rows[at] = row;
            self.nodes[at + 1] = node;
            self.pivots[at] = place;
            self.len = at + 1;
        }
        self
    }

    /// The path of the first steps, at most so many.
    pub fn shortened(mut self, steps: usize) -> Path
        ensures { (plant_of result ≡ plant_of self) × (keys_of result ≡ take steps (keys_of self)) }
    {
        self.len = self.length().min(steps);
        self
    }

    /// The place of the pivot of step i; 0 where the path has no such step.
    pub fn pivot_at(self, i: usize) -> u8
        ensures { result ≡ (get_or (keys_of self) i no_key).place }
    {
        if i < self.length() { self.pivots[i] } else { 0 }
    }

    /// The node of step i; 0 where the path has no such step.
    pub fn node_at(self, i: usize) -> u8
        ensures { result ≡ (get_or (keys_of self) i no_key).node }
    {
        if i < self.length() {
            self.nodes[i + 1]
        } else {
            0
        }
    }

    /// The node entered at place i: the plant at place 0; 0 where none is.
    pub fn entered_at(self, i: usize) -> u8
        ensures { result ≡ get_or (entered_by (plant_of self) (keys_of self)) i 0 }
    {
        if i <= self.length() { self.nodes[i] } else { 0 }
    }

    /// The row of step i; 0 where the path has no such step.
    pub fn row_at(self, i: usize) -> u16
        ensures { result ≡ (get_or (keys_of self) i no_key).row }
    {
        if i < self.length() { self.rows[i] } else { 0 }
    }

    /// Whether these are its rows, in its order.
    pub fn is_written(self, rows: &[u16]) -> bool
        ensures { result ≡ same (rows_in self) rows.now }
    {
        let n = self.length();
        &self.rows[..n] == rows
    }
}
