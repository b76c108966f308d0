//! The lines of a DIMACS edge file, one by one: a cursor, which is a place of the text, answers the line that begins there and the cursor behind it, and
//! `Lines` goes over all of them. Numbers are held at a cap, which is above every limit of a network file and above the lines of any text. What the types
//! below stand for is said in specs/Numbers.antt, and how a reader meets a text in specs/Reading.antt.
#![tactic(auto)]

ghost use Rattle.std.specs.Prelude.{◌≡◌, ℕ, ◌*◌, ◌+◌, ◌-◌, ◌<◌, ◌≤◌, ◌≢◌, min, length, slice_index, MatchOption};
ghost use Rattle.std.specs.Iterator.{YieldsFirstBy, item_count};
ghost use Rattle.edge_file.specs.Decimal.{leads, number_of};
ghost use Rattle.edge_file.specs.Text.{is_comment, line_of};
ghost use Rattle.edge_lines.specs.Numbers.{line_in, lines_left, number_in, step_in, two_in};
ghost use Rattle.edge_lines.specs.Reading.{cap, held_at, held_line, held_lines, held_two, step_at, two_of};

/// Numbers are held at this cap, the greatest number of 64 bits that ends in 9.
const CAP: u64 = 18446744073709551609;

/// A line as it was read, with its numbers held at the cap.
#[derive(Clone, Copy, Debug, PartialEq, Eq)]
pub enum TextLine {
    Comment,
    Problem { nodes: u64, count: u64 },
    Edge { one: u64, two: u64 },
    Other,
}

/// A place of a text, where a line begins.
#[derive(Clone, Copy, Debug, PartialEq, Eq)]
pub struct Cursor {
    pub at: usize,
}

/// The lines of a text, one after the other.
#[derive(Clone, Copy, Debug)]
pub struct Lines<'a> {
    pub text: &'a [u8],
    pub cursor: Cursor,
}

// The value with one digit more, held at the cap.
fn next_value(value: u64, digit: u8) -> u64
    requires { (48 ≤ digit) × (digit ≤ 57) }
    ensures { result ≡ min cap (value * 10 + (digit - 48)) }
{
    value
        .saturating_mul(10)
        .saturating_add(u64::from(digit - b'0'))
        .min(CAP)
}

// Whether there is a digit, and only '0' alone begins with '0'.
fn begins_well(bytes: &[u8]) -> bool
    ensures { result ≡ leads bytes.now }
{
    match bytes {
        [] => false,
        [_] => true,
        [first, ..] => *first != b'0',
    }
}

// The number that the bytes write, if they do.
fn number_of(bytes: &[u8]) -> Option<u64>
    ensures { number_in result ≡ held_at (number_of bytes.now) }
{
    if !begins_well(bytes) {
        return None;
    }
    let mut value = 0;
    for &b in bytes {
        if !b.is_ascii_digit() {
            return None;
        }
        value = next_value(value, b);
    }
    Some(value)
}

// The place of the first byte of a kind, if there is one.
fn first_place(bytes: &[u8], kind: u8) -> Option<usize>
    ensures { MatchOption result ((k : ℕ) → k < length bytes.now → slice_index bytes.now k ≢ kind)
        (λ i. (i < length bytes.now) × (slice_index bytes.now i ≡ kind) × ((k : ℕ) → k < i → slice_index bytes.now k ≢ kind)) }
{
    bytes.iter().position(|&b| b == kind)
}

// The two numbers that the bytes write, parted by a space, if they do.
fn two_numbers(bytes: &[u8]) -> Option<(u64, u64)>
    ensures { two_in result ≡ held_two (two_of bytes.now) }
{
    let space = first_place(bytes, b' ')?;
    let first = number_of(&bytes[..space])?;
    let second = number_of(&bytes[space + 1..])?;
    Some((first, second))
}

// Whether a line is `c` alone, or before a space.
fn is_comment(bytes: &[u8]) -> bool
    ensures { result ≡ is_comment bytes.now }
{
    match bytes {
        [] => false,
        [first] => *first == b'c',
        [first, second, ..] => *first == b'c' && *second == b' ',
    }
}

// The line that the bytes before a line feed are.
fn line_of(bytes: &[u8]) -> TextLine
    ensures { line_in result ≡ held_line (line_of bytes.now) }
{
    if is_comment(bytes) {
        return TextLine::Comment;
    }
    if let Some(rest) = bytes.strip_prefix(b"e ") {
        return match two_numbers(rest) {
            Some((one, two)) => TextLine::Edge { one, two },
            None => TextLine::Other,
        };
    }
    if let Some(rest) = bytes.strip_prefix(b"p edge ") {
        return match two_numbers(rest) {
            Some((nodes, count)) => TextLine::Problem { nodes, count },
            None => TextLine::Other,
        };
    }
    TextLine::Other
}

impl Cursor {
    /// The line that begins here, and the cursor behind it, if the text goes on; a rest without a line feed is a line of no form, and the last.
    pub fn step(self, text: &[u8]) -> Option<(TextLine, Cursor)>
        ensures { step_in result ≡ step_at text.now self.at }
    {
        let at = self.at;
        let n = text.len();
        if n <= at {
            return None;
        }
        let rest = &text[at..];
        let Some(end) = first_place(rest, b'\n') else {
            return Some((TextLine::Other, Cursor { at: n }));
        };
        let line = line_of(&rest[..end]);
        Some((line, Cursor { at: at + end + 1 }))
    }
}

impl<'a> Lines<'a> {
    /// The lines of a text, from the first on.
    pub fn new(text: &'a [u8]) -> Self
        ensures { lines_left result ≡ held_lines text.now }
    {
        Lines {
            text,
            cursor: Cursor { at: 0 },
        }
    }
}

impl Iterator for Lines<'_> {
    type Item = TextLine;

    ghost next_gives = { YieldsFirstBy line_in lines_left };

    ghost remaining = { item_count lines_left };

    fn next(&mut self) -> Option<TextLine> {
        let (line, next) = self.cursor.step(self.text)?;
        self.cursor = next;
        Some(line)
    }
}
