//! Places of tables: copied from one table into another, as many as both have; moved down within a table, or a row inserted, where they fit.
#![tactic(auto, unfolding(crate::specs::Copies::copied, crate::specs::Copies::fits, crate::specs::Copies::inserted, crate::specs::Copies::moved, crate::specs::Copies::room))]

ghost use Rattle.std.specs.Prelude.{◌≡◌, ◌+◌, ◌≤◌, min};
ghost use Rattle.std.specs.Bool.{OnTrue};
ghost use Rattle.copies.specs.Copies.{copied, fits, inserted, moved, room};

/// Copies n elements to a place of a table, as many as both have.
pub fn copy<T: Copy>(table: &mut [T], at: usize, places: &[T], n: usize)
    ensures { table.new ≡ copied table.old at places.now n }
{
    if at < table.len() {
        let m = n.min(places.len()).min(table.len() - at);
        // By elements: a copy of the whole part would ask memmove of a C program that links the library.
        for i in 0..m {
            table[at + i] = places[i];
        }
    }
}

// Whether n places from place `end` on lie within a table of `table` places, and place `at` not behind them.
fn within(table: usize, at: usize, end: usize, n: usize) -> bool
    ensures fits { result ≡ fits table at end n }
    ensures order { OnTrue result (at ≤ end) }
    ensures inside { OnTrue result (end + n ≤ table) }
{
    at <= end && end <= table && n <= table - end
}

/// Moves n elements of a table down to another place of it; where they do not fit, it stays as it is.
pub fn shift<T: Copy>(table: &mut [T], from: usize, to: usize, n: usize)
    ensures { table.new ≡ moved table.old from to n }
{
    if within(table.len(), to, from, n) {
        // By elements, as in `copy`, and from the first on: what is still to be moved lies behind what is written.
        for i in 0..n {
            table[to + i] = table[from + i];
        }
    }
}

/// Inserts a row at a place of the first `end` places, which move up from there; where it does not fit, the table stays as it is.
pub fn insert<T: Copy>(table: &mut [T], at: usize, end: usize, row: &[T])
    ensures { table.new ≡ inserted table.old at end row.now }
{
    let k = row.len();
    if within(table.len(), at, end, k) {
        // By elements, as in `copy`, and from the last on: what is still to be moved lies before what is written.
        for i in (at..end).rev() {
            table[i + k] = table[i];
        }
        copy(table, at, row, k);
    }
}
