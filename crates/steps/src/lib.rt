//! The steps of a path by their rows, and what a row costs in a network file.
#![tactic(auto)]

ghost use Rattle.std.specs.Prelude.{◌≡◌, ◌^◌, ◌<◌, ◌≤◌, length};
ghost use Rattle.costs.specs.Costs.{cost_at};
ghost use Rattle.costs.specs.Network.{row_at};
ghost use Rattle.network_file.specs.File.{network_of};
ghost use Rattle.paths.specs.Path.{rows_in};

use paths::Path;

/// The rows of the path's steps, in their order.
pub fn rows(path: &Path) -> &[u16]
    ensures rows { result.now ≡ rows_in path.now }
    ensures few { length result.now ≤ 31 }
{
    &path.rows[..path.length()]
}

/// The cost of a row in a criterion.
pub fn cost_of(file: &[u8], criterion: usize, row: u16) -> u64
    ensures cost { result ≡ cost_at (network_of file.now) criterion row }
    ensures fits { result < 2 ^ 32 }
{
    u64::from(fields::cost_at(file, criterion, usize::from(row)))
}

/// The street of a row.
pub fn street_of(file: &[u8], row: u16) -> u16
    ensures { result ≡ (row_at (network_of file.now) row).street }
{
    fields::street_at(file, usize::from(row))
}
