//! The library's functions for Rust and C. Rattle calls them here; the crate planner_static exports each.
//! What each call returns and leaves in its buffers stands in specs/Calls.antt.
#![tactic(auto)]

ghost use Rattle.std.specs.Prelude.{◌≡◌, ◌≤◌, List, [], ◌∷◌, ℕ, length};
ghost use Rattle.operations.specs.Operations.{over};
ghost use Rattle.planner_c.specs.Calls.{digit, held, told};
ghost use Rattle.planner_c.specs.Calls.{planner_charge, planner_cost, planner_count, planner_dimacs_read, planner_dimacs_write, planner_fetch, planner_front};
ghost use Rattle.planner_c.specs.Calls.{planner_index, planner_office, planner_open, planner_order, planner_page, planner_pick, planner_reach, planner_survey};

use charge::Split;
use fields::Header;
use fill::Filled;
use fronted::Rows;
use office::Note;
use reach::Reached;
use refusals::Refusal;

// What an operation answers: the numbers that a call puts in the first places of its answer buffer.
trait Answer: Copy {
    ghost values: { Self → List ℕ };

    ghost PLACES: { ℕ };

    const PLACES: usize;

    fn put(self, answer: &mut [u32])
        requires { PLACES ≤ length answer.old }
        ensures { answer.new ≡ over (values self) answer.old };
}

// Nothing.
impl Answer for () {
    ghost values = { λ nothing. [] };

    ghost PLACES = { 0 };

    const PLACES: usize = 0;

    fn put(self, _answer: &mut [u32]) {}
}

// A number of 32 bits.
impl Answer for u32 {
    ghost values = { λ number. number ∷ [] };

    ghost PLACES = { 1 };

    const PLACES: usize = 1;

    fn put(self, answer: &mut [u32]) {
        answer[0] = self;
    }
}

// A count.
impl Answer for usize {
    ghost values = { λ count. held count ∷ [] };

    ghost PLACES = { 1 };

    const PLACES: usize = 1;

    fn put(self, answer: &mut [u32]) {
        answer[0] = held(self);
    }
}

// The nodes, the rows and the criteria.
impl Answer for Header {
    ghost values = { λ header. header.n ∷ header.m ∷ header.k ∷ [] };

    ghost PLACES = { 3 };

    const PLACES: usize = 3;

    fn put(self, answer: &mut [u32]) {
        answer[..3].copy_from_slice(&[u32::from(self.n), u32::from(self.m), u32::from(self.k)]);
    }
}

// The word and the size.
impl Answer for Reached {
    ghost values = { λ reached. reached.word ∷ reached.size ∷ [] };

    ghost PLACES = { 2 };

    const PLACES: usize = 2;

    fn put(self, answer: &mut [u32]) {
        answer[..2].copy_from_slice(&[self.word, self.size]);
    }
}

// The quotient and the remainder.
impl Answer for Split {
    ghost values = { λ split. split.quotient ∷ split.remainder ∷ [] };

    ghost PLACES = { 2 };

    const PLACES: usize = 2;

    fn put(self, answer: &mut [u32]) {
        answer[..2].copy_from_slice(&[self.quotient, self.remainder]);
    }
}

// The count, and the mark, 1 for 'more'.
impl Answer for Filled {
    ghost values = { λ filled. held filled.count ∷ digit filled.more ∷ [] };

    ghost PLACES = { 2 };

    const PLACES: usize = 2;

    fn put(self, answer: &mut [u32]) {
        answer[..2].copy_from_slice(&[held(self.count), u32::from(self.more)]);
    }
}

// The count, and the mark, 1 for 'whole'.
impl Answer for Rows {
    ghost values = { λ rows. held rows.count ∷ digit rows.whole ∷ [] };

    ghost PLACES = { 2 };

    const PLACES: usize = 2;

    fn put(self, answer: &mut [u32]) {
        answer[..2].copy_from_slice(&[held(self.count), u32::from(self.whole)]);
    }
}

// The mark, 1 for 'entered', and the half's new filled count.
impl Answer for Note {
    ghost values = { λ note. digit note.entered ∷ held note.count ∷ [] };

    ghost PLACES = { 2 };

    const PLACES: usize = 2;

    fn put(self, answer: &mut [u32]) {
        answer[..2].copy_from_slice(&[u32::from(self.entered), held(self.count)]);
    }
}

// A count in a place of 32 bits: it holds at the greatest number there is.
fn held(count: usize) -> u32
    ensures { result ≡ held count }
{
    u32::try_from(count).unwrap_or(u32::MAX)
}

// What a call returns: 0, with what was answered in its places, or the refusal's number. A call with no answer buffer passes one with no place.
// That the answer has them is tested before the operation runs, so it is tested in each call: in a closure that writes to lent buffers,
// nothing of what they hold afterwards is proved.
fn status<T: Answer>(outcome: Result<T, Refusal>, answer: &mut [u32]) -> u32
    requires { T.PLACES ≤ length answer.old }
    ensures { record { code = result; buffers = answer.new } ≡ told T.values outcome answer.old }
{
    match outcome {
        Ok(values) => {
            values.put(answer);
            0
        }
        Err(refusal) => refusal.into(),
    }
}

/// Open: 0 with n, m and k in the first three places of the answer; the refusal's number; or 255 where the answer has
/// under three places.
pub fn planner_open(file: &[u8], answer: &mut [u32]) -> u32
    ensures { record { code = result; buffers = answer.new } ≡ planner_open file.now answer.old }
{
    if answer.len() < Header::PLACES {
        return 255;
    }
    status(network::open(file), answer)
}

/// Reach: 0 with the word and the size in the first two places of the answer; the refusal's number; or 255 where the
/// answer has under two places.
pub fn planner_reach(file: &[u8], answer: &mut [u32]) -> u32
    ensures { record { code = result; buffers = answer.new } ≡ planner_reach file.now answer.old }
{
    if answer.len() < Reached::PLACES {
        return 255;
    }
    status(reach::reach(file), answer)
}

/// Count: 0 with the number of trees in the first place of the answer; the refusal's number; or 255 where the answer has no
/// place.
pub fn planner_count(file: &[u8], answer: &mut [u32]) -> u32
    ensures { record { code = result; buffers = answer.new } ≡ planner_count file.now answer.old }
{
    if answer.is_empty() {
        return 255;
    }
    status(count::count(file), answer)
}

/// Order: 0 with the path in the first n - 1 places of the buffer, or the refusal's number.
pub fn planner_order(file: &[u8], rows: &[u16], buffer: &mut [u16]) -> u32
    ensures { record { code = result; buffers = buffer.new } ≡ planner_order file.now rows.now buffer.old }
{
    status(order::order(file, rows, buffer), &mut [])
}

/// Cost: 0 with the vector in the first k places of the buffer, or the refusal's number.
pub fn planner_cost(file: &[u8], rows: &[u16], buffer: &mut [u32]) -> u32
    ensures { record { code = result; buffers = buffer.new } ≡ planner_cost file.now rows.now buffer.old }
{
    status(cost::cost(file, rows, buffer), &mut [])
}

/// Connection charge: 0 with the charges of nodes 2 to n in the first n - 1 places of the buffer, and the quotient and the
/// remainder in the first two places of the answer; the refusal's number; or 255 where the answer has under two places.
pub fn planner_charge(
    file: &[u8],
    rows: &[u16],
    criterion: u32,
    buffer: &mut [u32],
    answer: &mut [u32],
) -> u32
    ensures { record { code = result; buffers = record { lent = buffer.new; answer = answer.new } }
        ≡ planner_charge file.now rows.now criterion buffer.old answer.old }
{
    if answer.len() < Split::PLACES {
        return 255;
    }
    status(charge::charge(file, rows, criterion, buffer), answer)
}

/// Pick: the length of tree t's part of the page, of which as much as fits is copied to the first places of out.
pub fn planner_pick(n: u32, page: &[u16], t: u64, out: &mut [u16]) -> u64
    ensures { record { code = result; buffers = out.new } ≡ planner_pick n page.now t out.old }
{
    // what no byte holds is out of range
    let Ok(n) = u8::try_from(n) else {
        return 0;
    };
    let part = pick::pick(n, page, t as usize);
    copies::copy(out, 0, part, part.len());
    part.len() as u64
}

/// Page: 0 with the count and the mark, 1 for 'more', in the first two places of the answer; the refusal's number; or
/// 255 where the answer has under two places.
pub fn planner_page(file: &[u8], page: &mut [u16], start: &[u16], answer: &mut [u32]) -> u32
    ensures { record { code = result; buffers = record { lent = page.new; answer = answer.new } }
        ≡ planner_page file.now page.old start.now answer.old }
{
    if answer.len() < Filled::PLACES {
        return 255;
    }
    status(page::page(file, page, start), answer)
}

/// Builds an index of every spacing-th tree: 0 with how many trees it holds in the first place of the answer; the refusal's
/// number; or 255 where the answer has no place.
pub fn planner_index_build(file: &[u8], spacing: u32, index: &mut [u16], answer: &mut [u32]) -> u32
    ensures { record { code = result; buffers = record { lent = index.new; answer = answer.new } }
        ≡ planner_index file.now spacing index.old answer.old }
{
    if answer.is_empty() {
        return 255;
    }
    status(index::build(file, spacing, index), answer)
}

/// Fetches a tree of the list by its number, from 0 on: 0 with its path in the first n - 1 places of the buffer and the moves
/// in the first place of the answer; the refusal's number; or 255 where the answer has no place.
pub fn planner_index_fetch(
    file: &[u8],
    spacing: u32,
    index: &[u16],
    tree: u64,
    buffer: &mut [u16],
    answer: &mut [u32],
) -> u32
    ensures { record { code = result; buffers = record { lent = buffer.new; answer = answer.new } }
        ≡ planner_fetch file.now spacing index.now tree buffer.old answer.old }
{
    if answer.is_empty() {
        return 255;
    }
    status(fetch::fetch(file, spacing, index, tree, buffer), answer)
}

/// Front: 0 with the count and the mark, 1 for 'whole', in the first two places of the answer; the refusal's number; or
/// 255 where the answer has under two places. The tree beside a vector is the first of the list that has it.
pub fn planner_front(
    file: &[u8],
    costs: &mut [u32],
    witnesses: &mut [u16],
    answer: &mut [u32],
) -> u32
    ensures { record { code = result; buffers = record { lent = record { costs = costs.new; witnesses = witnesses.new }; answer = answer.new } }
        ≡ planner_front file.now costs.old witnesses.old answer.old }
{
    if answer.len() < Rows::PLACES {
        return 255;
    }
    status(front::front(file, costs, witnesses), answer)
}

/// A second office in the same table: 0 with 1 for 'entered' or 0 for 'met', and the half's new filled count, in the first
/// two places of the answer; the refusal's number; or 255 where the answer has under two places.
pub fn planner_office(
    file: &[u8],
    rows: &[u16],
    office: u32,
    h: u64,
    costs: &mut [u32],
    witnesses: &mut [u16],
    filled1: u64,
    filled2: u64,
    answer: &mut [u32],
) -> u32
    ensures { record { code = result; buffers = record { lent = record { costs = costs.new; witnesses = witnesses.new }; answer = answer.new } }
        ≡ planner_office file.now rows.now office h (record { first = filled1; second = filled2 })
        (record { costs = costs.old; witnesses = witnesses.old }) answer.old }
{
    if answer.len() < Note::PLACES {
        return 255;
    }
    let noted = office::office(
        file,
        rows,
        office,
        h as usize,
        costs,
        witnesses,
        filled1 as usize,
        filled2 as usize,
    );
    status(noted, answer)
}

/// Reads a DIMACS edge file: 0 with the network file in the buffer and its length in bytes in the first place of the answer; the
/// refusal's number; or 255 where the answer has no place.
pub fn planner_dimacs_read(text: &[u8], buffer: &mut [u8], answer: &mut [u32]) -> u32
    ensures { record { code = result; buffers = record { lent = buffer.new; answer = answer.new } }
        ≡ planner_dimacs_read text.now buffer.old answer.old }
{
    if answer.is_empty() {
        return 255;
    }
    status(edge_read::read(text, buffer), answer)
}

/// Writes a network's ends as a DIMACS edge file: 0 with the text in the buffer and its length in bytes in the first place of the
/// answer; the refusal's number; or 255 where the answer has no place.
pub fn planner_dimacs_write(file: &[u8], buffer: &mut [u8], answer: &mut [u32]) -> u32
    ensures { record { code = result; buffers = record { lent = buffer.new; answer = answer.new } }
        ≡ planner_dimacs_write file.now buffer.old answer.old }
{
    if answer.is_empty() {
        return 255;
    }
    status(edge_write::write(file, buffer), answer)
}

/// Writes a newer survey over an older as one network file: 0 with the file in the buffer and its length in bytes in the first place of
/// the answer; the refusal's number; or 255 where the answer has no place.
pub fn planner_survey(older: &[u8], newer: &[u8], buffer: &mut [u8], answer: &mut [u32]) -> u32
    ensures { record { code = result; buffers = record { lent = buffer.new; answer = answer.new } }
        ≡ planner_survey older.now newer.now buffer.old answer.old }
{
    if answer.is_empty() {
        return 255;
    }
    status(survey::survey(older, newer, buffer), answer)
}
