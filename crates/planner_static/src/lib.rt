//! The library's functions for Rust and C, exported: a static library can have exports, and no crate can depend on it, so the functions stand in
//! the crate planner_c, each is called here under its own name, and its clause stands here again.
//! A slice passes as a pointer and a length. The Rust tests in tests/ call these.
#![tactic(auto)]

ghost use Rattle.std.specs.Prelude.{◌≡◌};
ghost use Rattle.planner_c.specs.Calls.{planner_charge, planner_cost, planner_count, planner_dimacs_read, planner_dimacs_write, planner_fetch, planner_front, planner_index};
ghost use Rattle.planner_c.specs.Calls.{planner_office, planner_open, planner_order, planner_page, planner_pick, planner_reach, planner_survey};

/// Open: 0 with n, m and k in the first three places of the answer; the refusal's number; or 255 where the answer has
/// under three places.
#[unsafe(no_mangle)]
pub extern "C" fn planner_open(file: &[u8], answer: &mut [u32]) -> u32
    ensures { record { code = result; buffers = answer.new } ≡ planner_open file.now answer.old }
{
    planner_c::planner_open(file, answer)
}

/// Reach: 0 with the word and the size in the first two places of the answer; the refusal's number; or 255 where the
/// answer has under two places.
#[unsafe(no_mangle)]
pub extern "C" fn planner_reach(file: &[u8], answer: &mut [u32]) -> u32
    ensures { record { code = result; buffers = answer.new } ≡ planner_reach file.now answer.old }
{
    planner_c::planner_reach(file, answer)
}

/// Count: 0 with the number of trees in the first place of the answer; the refusal's number; or 255 where the answer has no
/// place.
#[unsafe(no_mangle)]
pub extern "C" fn planner_count(file: &[u8], answer: &mut [u32]) -> u32
    ensures { record { code = result; buffers = answer.new } ≡ planner_count file.now answer.old }
{
    planner_c::planner_count(file, answer)
}

/// Order: 0 with the path in the first n - 1 places of the buffer, or the refusal's number.
#[unsafe(no_mangle)]
pub extern "C" fn planner_order(file: &[u8], rows: &[u16], buffer: &mut [u16]) -> u32
    ensures { record { code = result; buffers = buffer.new } ≡ planner_order file.now rows.now buffer.old }
{
    planner_c::planner_order(file, rows, buffer)
}

/// Cost: 0 with the vector in the first k places of the buffer, or the refusal's number.
#[unsafe(no_mangle)]
pub extern "C" fn planner_cost(file: &[u8], rows: &[u16], buffer: &mut [u32]) -> u32
    ensures { record { code = result; buffers = buffer.new } ≡ planner_cost file.now rows.now buffer.old }
{
    planner_c::planner_cost(file, rows, buffer)
}

/// Connection charge: 0 with the charges of nodes 2 to n in the first n - 1 places of the buffer, and the quotient and the
/// remainder in the first two places of the answer; the refusal's number; or 255 where the answer has under two places.
#[unsafe(no_mangle)]
pub extern "C" fn planner_charge(
    file: &[u8],
    rows: &[u16],
    criterion: u32,
    buffer: &mut [u32],
    answer: &mut [u32],
) -> u32
    ensures { record { code = result; buffers = record { lent = buffer.new; answer = answer.new } }
        ≡ planner_charge file.now rows.now criterion buffer.old answer.old }
{
    planner_c::planner_charge(file, rows, criterion, buffer, answer)
}

/// Pick: the length of tree t's part of the page, of which as much as fits is copied to the first places of out.
#[unsafe(no_mangle)]
pub extern "C" fn planner_pick(n: u32, page: &[u16], t: u64, out: &mut [u16]) -> u64
    ensures { record { code = result; buffers = out.new } ≡ planner_pick n page.now t out.old }
{
    planner_c::planner_pick(n, page, t, out)
}

/// Page: 0 with the count and the mark, 1 for 'more', in the first two places of the answer; the refusal's number; or
/// 255 where the answer has under two places.
#[unsafe(no_mangle)]
pub extern "C" fn planner_page(
    file: &[u8],
    page: &mut [u16],
    start: &[u16],
    answer: &mut [u32],
) -> u32
    ensures { record { code = result; buffers = record { lent = page.new; answer = answer.new } }
        ≡ planner_page file.now page.old start.now answer.old }
{
    planner_c::planner_page(file, page, start, answer)
}

/// Builds an index of every spacing-th tree: 0 with how many trees it holds in the first place of the answer; the refusal's
/// number; or 255 where the answer has no place.
#[unsafe(no_mangle)]
pub extern "C" fn planner_index_build(
    file: &[u8],
    spacing: u32,
    index: &mut [u16],
    answer: &mut [u32],
) -> u32
    ensures { record { code = result; buffers = record { lent = index.new; answer = answer.new } }
        ≡ planner_index file.now spacing index.old answer.old }
{
    planner_c::planner_index_build(file, spacing, index, answer)
}

/// Fetches a tree of the list by its number, from 0 on: 0 with its path in the first n - 1 places of the buffer and the moves
/// in the first place of the answer; the refusal's number; or 255 where the answer has no place.
#[unsafe(no_mangle)]
pub extern "C" fn planner_index_fetch(
    file: &[u8],
    spacing: u32,
    index: &[u16],
    tree: u64,
    buffer: &mut [u16],
    answer: &mut [u32],
) -> u32
    ensures { record { code = result; buffers = record { lent = buffer.new; answer = answer.new } }
        ≡ planner_fetch file.now spacing index.now tree buffer.old answer.old }
{
    planner_c::planner_index_fetch(file, spacing, index, tree, buffer, answer)
}

/// Front: 0 with the count and the mark, 1 for 'whole', in the first two places of the answer; the refusal's number; or
/// 255 where the answer has under two places. The tree beside a vector is the first of the list that has it.
#[unsafe(no_mangle)]
pub extern "C" fn planner_front(
    file: &[u8],
    costs: &mut [u32],
    witnesses: &mut [u16],
    answer: &mut [u32],
) -> u32
    ensures { record { code = result; buffers = record { lent = record { costs = costs.new; witnesses = witnesses.new }; answer = answer.new } }
        ≡ planner_front file.now costs.old witnesses.old answer.old }
{
    planner_c::planner_front(file, costs, witnesses, answer)
}

/// A second office in the same table: 0 with 1 for 'entered' or 0 for 'met', and the half's new filled count, in the first
/// two places of the answer; the refusal's number; or 255 where the answer has under two places.
#[unsafe(no_mangle)]
pub extern "C" fn planner_office(
    file: &[u8],
    rows: &[u16],
    office: u32,
    h: u64,
    costs: &mut [u32],
    witnesses: &mut [u16],
    filled1: u64,
    filled2: u64,
    answer: &mut [u32],
) -> u32
    ensures { record { code = result; buffers = record { lent = record { costs = costs.new; witnesses = witnesses.new }; answer = answer.new } }
        ≡ planner_office file.now rows.now office h (record { first = filled1; second = filled2 })
        (record { costs = costs.old; witnesses = witnesses.old }) answer.old }
{
    planner_c::planner_office(
        file, rows, office, h, costs, witnesses, filled1, filled2, answer,
    )
}

/// Reads a DIMACS edge file: 0 with the network file in the buffer and its length in bytes in the first place of the answer; the
/// refusal's number; or 255 where the answer has no place.
#[unsafe(no_mangle)]
pub extern "C" fn planner_dimacs_read(text: &[u8], buffer: &mut [u8], answer: &mut [u32]) -> u32
    ensures { record { code = result; buffers = record { lent = buffer.new; answer = answer.new } }
        ≡ planner_dimacs_read text.now buffer.old answer.old }
{
    planner_c::planner_dimacs_read(text, buffer, answer)
}

/// Writes a network's ends as a DIMACS edge file: 0 with the text in the buffer and its length in bytes in the first place of the
/// answer; the refusal's number; or 255 where the answer has no place.
#[unsafe(no_mangle)]
pub extern "C" fn planner_dimacs_write(file: &[u8], buffer: &mut [u8], answer: &mut [u32]) -> u32
    ensures { record { code = result; buffers = record { lent = buffer.new; answer = answer.new } }
        ≡ planner_dimacs_write file.now buffer.old answer.old }
{
    planner_c::planner_dimacs_write(file, buffer, answer)
}

/// Writes a newer survey over an older as one network file: 0 with the file in the buffer and its length in bytes in the first place of
/// the answer; the refusal's number; or 255 where the answer has no place.
#[unsafe(no_mangle)]
pub extern "C" fn planner_survey(
    older: &[u8],
    newer: &[u8],
    buffer: &mut [u8],
    answer: &mut [u32],
) -> u32
    ensures { record { code = result; buffers = record { lent = buffer.new; answer = answer.new } }
        ≡ planner_survey older.now newer.now buffer.old answer.old }
{
    planner_c::planner_survey(older, newer, buffer, answer)
}
