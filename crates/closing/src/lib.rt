//! What the streets of a path cost: a named street is closed once for all its rows, for the largest days among them, and the rows of street 0 count one by one.
//! A path has at most 31 rows and a cost is below 2 to the power 32, so that the sums fit 64 bits for any file.
#![tactic(auto)]

ghost use Rattle.std.specs.Prelude.{◌≡◌, max};
ghost use Rattle.std.specs.List.{filter, fold, list_any};
ghost use Rattle.costs.specs.Costs.{closing_cost, cost_at, street_cost};
ghost use Rattle.network_file.specs.File.{network_of};
ghost use Rattle.paths.specs.Path.{rows_in};
ghost use Rattle.closing.specs.Closing.{closing_step, lies_in};

use paths::Path;

// Whether a row lies in the street.
fn lies_in(file: &[u8], row: u16, street: u16) -> bool
    ensures { result ≡ lies_in (network_of file.now) street row }
{
    steps::street_of(file, row) == street
}

// The largest cost among the rows that lie in the street.
fn most_in(file: &[u8], criterion: usize, rows: &[u16], street: u16) -> u64
    ensures { result ≡ fold (λ most r. max most (cost_at (network_of file.now) criterion r)) 0 (filter (lies_in (network_of file.now) street) rows.now) }
{
    rows.iter().filter(|row| lies_in(file, **row, street)).fold(
        0,
        |most, row| most.max(steps::cost_of(file, criterion, *row)),
    )
}

/// What one named street costs: it is closed once for all its rows, for the largest days among them.
pub fn street_cost(file: &[u8], criterion: usize, path: Path, street: u16) -> u64
    ensures { result ≡ street_cost (network_of file.now) criterion (rows_in path) street }
{
    most_in(file, criterion, steps::rows(&path), street)
}

// Whether one of the rows lies in the street.
fn any_in(file: &[u8], rows: &[u16], street: u16) -> bool
    ensures { result ≡ list_any (lies_in (network_of file.now) street) rows.now }
{
    rows.iter().any(|row| lies_in(file, *row, street))
}

// What a row adds to the cost of all rows, with the rows behind it: a row of street 0 its cost,
// the last row of a named street what that street costs, any other row nothing.
#[tactic(auto, using(lists::proofs::Library::any_is), unfolding(crate::specs::Closing::closing_step))]
fn closing_step(file: &[u8], criterion: usize, rows: &[u16], row: u16, behind: &[u16]) -> u64
    ensures { result ≡ closing_step (network_of file.now) criterion rows.now row behind.now }
{
    let street = steps::street_of(file, row);
    if street == 0 {
        steps::cost_of(file, criterion, row)
    } else if any_in(file, behind, street) {
        0
    } else {
        most_in(file, criterion, rows, street)
    }
}

/// The named streets, street by street, and the days of the rows of street 0.
#[tactic(auto, using(crate::proofs::Streets::closing_fits, crate::proofs::Streets::closing_more, crate::proofs::Streets::closing_none), unfolding(crate::proofs::Streets::closing_from))]
pub fn closing(file: &[u8], criterion: usize, path: Path) -> u64
    ensures { result ≡ closing_cost (network_of file.now) criterion (rows_in path) }
{
    let rows = steps::rows(&path);
    let mut sum = 0;
    for (i, row) in rows.iter().enumerate() {
        sum += closing_step(file, criterion, rows, *row, &rows[i + 1..]);
    }
    sum
}
