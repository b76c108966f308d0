//! A second office in the same table: a drawn spanning tree entered in an office's half of one front table.
#![tactic(auto)]

ghost use Rattle.std.specs.Prelude.{◌≡◌, ◌*◌, ◌<◌, ◌≤◌, eqb};
ghost use Rattle.table.specs.Answers.{entering_of};
ghost use Rattle.offices.specs.Offices.{office_call, tables_fit};
ghost use Rattle.office.specs.Answers.{note_by, note_call, noted_of};

use refusals::{Refusal, check};
use table::Entered;

/// Whether the vector was entered, or met by a row, and how many rows of the half are filled now.
#[derive(Clone, Copy, Debug, PartialEq, Eq)]
pub struct Note {
    pub entered: bool,
    pub count: usize,
}

// Whether a table of so many places has exactly 2 × h rows; h may be any number.
fn has_rows(places: usize, width: usize, h: usize) -> bool
    requires { (0 < width) × (width ≤ 31) }
    ensures { result ≡ eqb places (2 * (h * width)) }
{
    let both = 2 * width;
    places / both == h && places % both == 0
}

// Check 11. The tables and their counts come one by one, as C gives them.
#[tactic(auto, unfolding(offices::specs::Offices::tables_fit))]
fn fit(
    office: u32,
    h: usize,
    k: usize,
    w: usize,
    costs: &[u32],
    witnesses: &[u16],
    first: usize,
    second: usize,
) -> bool
    requires { (0 < k) × (k ≤ 31) × (0 < w) × (w ≤ 31) }
    ensures { result ≡ tables_fit k w office h (record { first = first; second = second }) (record { costs = costs.now; witnesses = witnesses.now }) }
{
    matches!(office, 1 | 2)
        && 0 < h
        && has_rows(costs.len(), k, h)
        && has_rows(witnesses.len(), w, h)
        && first <= h
        && second <= h
}

// What entering in a half comes to, of which so many rows were filled.
fn noted(entered: Entered, count: usize) -> Result<Note, Refusal>
    ensures { noted_of result ≡ note_by (entering_of entered) count }
{
    match entered {
        Entered::Unfit => Err(Refusal::ShortBuffer),
        Entered::Met => Ok(Note {
            entered: false,
            count,
        }),
        Entered::Full => Err(Refusal::FullHalf),
        Entered::Rows(filled) => Ok(Note {
            entered: true,
            count: filled,
        }),
    }
}

// Enters a vector with a tree's path in the office's half of both tables.
fn enter(
    office: u32,
    costs: &mut [u32],
    witnesses: &mut [u16],
    first: usize,
    second: usize,
    vector: &[u32],
    path: &[u16],
) -> Result<Note, Refusal>
    ensures { record { outcome = noted_of result; buffers = record { costs = costs.new; witnesses = witnesses.new } }
        ≡ note_call office (record { first = first; second = second })
        (record { costs = costs.old; witnesses = witnesses.old }) (record { vector = vector.now; path = path.now }) }
{
    let a = costs.len() / 2;
    let b = witnesses.len() / 2;
    if office == 1 {
        let entered = table::enter(&mut costs[..a], &mut witnesses[..b], first, vector, path);
        return noted(entered, first);
    }
    let entered = table::enter(&mut costs[a..], &mut witnesses[b..], second, vector, path);
    noted(entered, second)
}

/// Office: the drawn rows entered in the office's half of both tables. Each half has h rows, of which the first `first` and
/// `second` are filled.
pub fn office(
    file: &[u8],
    rows: &[u16],
    office: u32,
    h: usize,
    costs: &mut [u32],
    witnesses: &mut [u16],
    first: usize,
    second: usize,
) -> Result<Note, Refusal>
    ensures { record { outcome = noted_of result; buffers = record { costs = costs.new; witnesses = witnesses.new } }
        ≡ office_call file.now rows.now office h (record { first = first; second = second }) (record { costs = costs.old; witnesses = witnesses.old }) }
{
    let path = drawn::drawn(file, rows)?;
    let header = fields::header_of(file);
    let k = header.k as usize;
    let fits = fit(office, h, k, rows.len(), costs, witnesses, first, second);
    check(fits, Refusal::ShortBuffer)?;
    let costs_of_path = vector::vector(file, path);
    let vector = &costs_of_path[..k];
    enter(
        office,
        costs,
        witnesses,
        first,
        second,
        vector,
        steps::rows(&path),
    )
}
