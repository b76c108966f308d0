// What a sequence of rows can do.

ghost use Rattle.std.specs.Prelude.{◌≡◌, [], ◌++◌, ◌∷◌, ◌≤◌, get_or, length, take};
ghost use Rattle.chosen.specs.Chosen.{rows_of};

use crate::Chosen;

impl Chosen {
    /// No row.
    pub fn empty() -> Chosen
        ensures { rows_of result ≡ [] }
    {
        Chosen {
            rows: [0; 31],
            len: 0,
        }
    }

    /// The rows, first to last.
    pub fn rows(&self) -> &[u8]
        ensures { (result.now ≡ rows_of self.now) × (length result.now ≤ 31) }
    {
        &self.rows[..self.len]
    }

    /// How many rows they are.
    pub fn count(self) -> usize
        ensures { (result ≡ length (rows_of self)) × (result ≤ 31) }
    {
        self.len
    }

    /// The row at a place; 0 where there is none.
    pub fn row_at(self, i: usize) -> u8
        ensures { result ≡ get_or (rows_of self) i 0 }
    {
        self.rows().get(i).copied().unwrap_or(0)
    }

    /// One row more, behind the others, if there is room.
    pub fn extended(mut self, row: u8) -> Chosen
        ensures { rows_of result ≡ take 31 (rows_of self ++ (row ∷ [])) }
    {
        if self.len < 31 {
            self.rows[self.len] = row;
            self.len += 1;
        }
        self
    }

    /// These rows and then more, as far as there is room.
    pub fn joined(self, more: Chosen) -> Chosen
        ensures { rows_of result ≡ take 31 (rows_of self ++ rows_of more) }
    {
        let mut all = self;
        for &row in more.rows() {
            all = all.extended(row);
        }
        all
    }
}
