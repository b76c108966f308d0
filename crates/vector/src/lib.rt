//! The cost vector of a path: for each criterion what its kind makes of the costs of the path's rows.
//! A path has at most 31 rows and a cost is below 2 to the power 32, so that the sums fit 64 bits for any file.
#![tactic(auto, using(lists::proofs::Library::of_lists))]

ghost use Rattle.std.specs.Prelude.{◌≡◌};
ghost use Rattle.costs.specs.Costs.{added_cost, worst_cost};
ghost use Rattle.network_file.specs.File.{network_of};
ghost use Rattle.paths.specs.Path.{rows_in};
ghost use Rattle.vector.specs.Vector.{criterion_of, held_of, vector_of};

use fields::Kind;
use paths::Path;

/// The sum over the rows.
pub fn added(file: &[u8], criterion: usize, path: Path) -> u64
    ensures { result ≡ added_cost (network_of file.now) criterion (rows_in path) }
{
    steps::rows(&path)
        .iter()
        .map(|row| steps::cost_of(file, criterion, *row))
        .sum()
}

/// The largest cost among the rows.
pub fn worst(file: &[u8], criterion: usize, path: Path) -> u64
    ensures { result ≡ worst_cost (network_of file.now) criterion (rows_in path) }
{
    steps::rows(&path).iter().fold(
        0,
        |most, row| most.max(steps::cost_of(file, criterion, *row)),
    )
}

/// The cost in a criterion, by its kind; 0 where there is no such criterion.
pub fn criterion_cost(file: &[u8], criterion: u8, path: Path) -> u64
    ensures { result ≡ criterion_of file.now criterion (rows_in path) }
{
    if fields::header_of(file).k <= criterion {
        return 0;
    }
    let c = criterion as usize;
    match Kind::try_from(slices::at(file, 9 + c, 0)) {
        Ok(Kind::Added) => added(file, c, path),
        Ok(Kind::Worst) => worst(file, c, path),
        Ok(Kind::Closing) => closing::closing(file, c, path),
        // check 5 keeps out a byte that names no kind
        Err(_) => 0,
    }
}

// A cost in a place of 32 bits: it holds at the greatest number there is.
fn held(cost: u64) -> u32
    ensures { result ≡ held_of cost }
{
    u32::try_from(cost).unwrap_or(u32::MAX)
}

/// The cost vector in words of 32 bits; the places past the last criterion are 0.
#[tactic(auto, unfolding(crate::specs::Vector::vector_of, lists::specs::Lists::range))]
pub fn vector(file: &[u8], path: Path) -> [u32; 4]
    ensures { result ≡ vector_of file.now (rows_in path) }
{
    [0, 1, 2, 3].map(|criterion| held(criterion_cost(file, criterion, path)))
}
