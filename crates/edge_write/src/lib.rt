//! Writing the ends of a network's rows as a DIMACS edge file, into a buffer that is lent: its length is worked out first, so that nothing is written where
//! it does not fit. What a call comes to is said in edge_file's specs/Dimacs.antt; specs/Answers.antt says what the answer stands for.
#![tactic(auto)]

ghost use Rattle.std.specs.Prelude.{◌≡◌, ◌<◌, ◌≤◌, length};
ghost use Rattle.std.proofs.Math.Option.{none};
ghost use Rattle.checks.specs.Checks.{first_unmet};
ghost use Rattle.edge_file.specs.Dimacs.{text_call, text_in};
ghost use Rattle.edge_file.specs.Text.{edge_line, with_feed};
ghost use Rattle.fields.specs.Fields.{sizes_in};
ghost use Rattle.network_file.specs.File.{file_checks, network_of, sizes_of};
ghost use Rattle.printout.specs.Text.{decimal_of, filled, put};
ghost use Rattle.edge_write.specs.Answers.{written_of};
ghost use Rattle.edge_write.specs.Lines.{edge_lines, worded};

use fields::Header;
use refusals::{Refusal, check};

// How many digits a number of at most three has.
fn digits(x: u16) -> u32
    requires { x < 1000 }
    ensures count { result ≡ length (decimal_of x) }
    ensures few { result ≤ 3 }
{
    match x {
        0..=9 => 1,
        10..=99 => 2,
        _ => 3,
    }
}

// The length of an edge line, its line feed with it.
fn edge_length(one: u8, two: u8) -> u32
    ensures count { result ≡ length (with_feed (edge_line (record { one = one; two = two }))) }
    ensures few { result ≤ 10 }
{
    4 + digits(one as u16) + digits(two as u16)
}

// The length of the edge lines of the first m rows.
fn edges_length(file: &[u8], m: u16) -> u32
    requires { (m ≤ 256) × (m ≤ length (network_of file.now).rows) }
    ensures count { result ≡ length (edge_lines (network_of file.now) m) }
    ensures few { result ≤ 2560 }
{
    let mut total = 0;
    for r in 0..m as usize {
        let row = fields::row_at(file, r);
        total += edge_length(row.first, row.second);
    }
    total
}

// The length of the whole text.
fn text_length(file: &[u8], header: Header) -> u32
    requires { (first_unmet (file_checks file.now) ≡ none) × (sizes_in header ≡ sizes_of file.now) }
    ensures { result ≡ length (text_in file.now) }
{
    9 + digits(header.n as u16) + digits(header.m) + edges_length(file, header.m)
}

// Puts a line of a word and two numbers into the buffer, as far as it fits; answers the place behind.
fn put_line(buffer: &mut [u8], at: usize, word: &[u8], one: u16, two: u16) -> usize
    ensures { filled buffer.new result ≡ put buffer.old at (worded word.now one two) }
{
    let place = printout::text(buffer, at, word);
    let place = printout::number(buffer, place, one as u64);
    let place = printout::number(buffer, place, two as u64);
    printout::ended(buffer, place)
}

// Puts the edge lines of the first m rows into the buffer, as far as they fit; answers the place behind.
fn put_edges(file: &[u8], m: u16, buffer: &mut [u8], from: usize) -> usize
    requires { m ≤ length (network_of file.now).rows }
    ensures { filled buffer.new result ≡ put buffer.old from (edge_lines (network_of file.now) m) }
{
    let mut at = from;
    for r in 0..m as usize {
        let row = fields::row_at(file, r);
        at = put_line(buffer, at, b"e", row.first as u16, row.second as u16);
    }
    at
}

// Writing, of a file that is accepted.
fn accepted_write(file: &[u8], header: Header, buffer: &mut [u8]) -> Result<u32, Refusal>
    requires { (first_unmet (file_checks file.now) ≡ none) × (sizes_in header ≡ sizes_of file.now) }
    ensures { record { outcome = written_of result; buffers = buffer.new } ≡ text_call file.now buffer.old }
{
    let length = text_length(file, header);
    check(length as usize <= buffer.len(), Refusal::ShortBuffer)?;
    let at = put_line(buffer, 0, b"p edge", header.n as u16, header.m);
    put_edges(file, header.m, buffer, at);
    Ok(length)
}

/// Writes the ends of the file's rows as text from the first place of the buffer on, and answers its length in bytes; bytes past it keep their content.
pub fn write(file: &[u8], buffer: &mut [u8]) -> Result<u32, Refusal>
    ensures { record { outcome = written_of result; buffers = buffer.new } ≡ text_call file.now buffer.old }
{
    let header = network::open(file)?;
    accepted_write(file, header, buffer)
}
