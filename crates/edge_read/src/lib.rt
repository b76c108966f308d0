//! Reading a DIMACS edge file into a network file of version 1, in a buffer that is lent: a first pass over the lines classifies and counts them, a second
//! writes a row for each edge line. What a call comes to is said in edge_file's specs/Dimacs.antt; what a pass comes to, in specs/Scan.antt; specs/Answers.antt says
//! what the types below stand for.
#![tactic(auto)]

ghost use Rattle.std.specs.Prelude.{◌≡◌, ◌&&◌, ◌+◌, ◌<◌, ◌≤◌, IfOk, MatchOption, false, length, not, true};
ghost use Rattle.lists.specs.Lists.{concat_map};
ghost use Rattle.checks.specs.Checks.{checked};
ghost use Rattle.edge_file.specs.Dimacs.{dimacs_call};
ghost use Rattle.edge_lines.specs.Numbers.{line_in};
ghost use Rattle.edge_lines.specs.Reading.{held_lines};
ghost use Rattle.network_file.specs.File.{within};
ghost use Rattle.printout.specs.Text.{filled, put};
ghost use Rattle.edge_read.specs.Answers.{read_of, scan_of};
ghost use Rattle.edge_read.specs.declared.Sizes.{Sizes};
ghost use Rattle.refusals.specs.Refusals.{outcome_of};
ghost use Rattle.edge_read.specs.Scan.{file_length, head_bytes, line_bytes, scan_checks, scan_line, scan_lines, scan_start, sound_ends};

use edge_lines::{Lines, TextLine};
use refusals::{Refusal, check};

// The numbers of the `p` line.
#[derive(Clone, Copy, Debug, PartialEq, Eq)]
struct Problem {
    nodes: u64,
    count: u64,
}

// What the lines have said so far: whether one was of no form or in the wrong place, the numbers of the `p` line if it was met, how many edge lines, and whether
// their ends are nodes and differ.
#[derive(Clone, Copy, Debug, PartialEq, Eq)]
struct Tally {
    bad: bool,
    problem: Option<Problem>,
    edges: u64,
    sound: bool,
}

// Whether two ends are nodes 1 to n that differ.
fn ends_sound(n: u64, one: u64, two: u64) -> bool
    ensures { result ≡ sound_ends n one two }
{
    (1..=n).contains(&one) && (1..=n).contains(&two) && one != two
}

// The nodes and the rows of a file.
#[derive(Clone, Copy, Debug, PartialEq, Eq)]
struct Sizes {
    n: u8,
    m: u16,
}

impl Sizes {
    // The length of the file.
    fn length(self) -> u32
        ensures { result ≡ file_length self.m }
    {
        10 + 8 * u32::from(self.m)
    }
}

impl Problem {
    // Whether both numbers are within a network file's limits.
    fn is_sound(self) -> bool
        ensures { result ≡ (within 2 32 self.nodes && within 0 256 self.count) }
    {
        (2..=32).contains(&self.nodes) && self.count <= 256
    }
}

impl Tally {
    // The tally with one line more.
    fn with(self, line: TextLine) -> Tally
        requires { self.edges < 18446744073709551615 }
        ensures scanned { scan_of result ≡ scan_line (scan_of self) (line_in line) }
        ensures few { result.edges ≤ self.edges + 1 }
    {
        match line {
            TextLine::Comment => self,
            TextLine::Problem { nodes, count } => Tally {
                bad: self.bad || self.problem.is_some(),
                problem: Some(Problem { nodes, count }),
                ..self
            },
            TextLine::Edge { one, two } => match self.problem {
                Some(problem) => Tally {
                    edges: self.edges + 1,
                    sound: self.sound && ends_sound(problem.nodes, one, two),
                    ..self
                },
                None => Tally {
                    bad: true,
                    edges: self.edges + 1,
                    sound: false,
                    ..self
                },
            },
            TextLine::Other => Tally { bad: true, ..self },
        }
    }

    // The numbers of the `p` line, if each line is of a form and in its place.
    fn formed(self) -> Option<Problem>
        ensures { MatchOption result ((not self.bad && (scan_of self).seen) ≡ false)
            (λ p. ((not self.bad && (scan_of self).seen) ≡ true) × (p.nodes ≡ (scan_of self).nodes) × (p.count ≡ (scan_of self).count)) }
    {
        if self.bad { None } else { self.problem }
    }

    // The sizes of the file, by the tally of a text and the places of the buffer, else the first check that is not met.
    #[tactic(auto, unfolding(checks::specs::Checks::checked, checks::specs::Checks::first_unmet, crate::specs::Scan::scan_checks))]
    fn checked(self, places: usize) -> Result<Sizes, Refusal>
        ensures outcome { outcome_of (λ (s : Sizes). file_length s.m) result ≡ checked (scan_checks (scan_of self) places) (file_length self.edges) }
        ensures sizes { IfOk result (λ s. (s.n ≡ (scan_of self).nodes) × (s.m ≡ self.edges)) }
    {
        let problem = self.formed().ok_or(Refusal::WrongLine)?;
        check(self.edges == problem.count, Refusal::WrongEdgeCount)?;
        check(problem.is_sound(), Refusal::WrongSizes)?;
        check(self.sound, Refusal::WrongEnds)?;
        let sizes = Sizes {
            n: problem.nodes as u8,
            m: self.edges as u16,
        };
        check(sizes.length() as usize <= places, Refusal::ShortBuffer)?;
        Ok(sizes)
    }
}

// The first pass: the tally of all lines of a text.
fn scan(text: &[u8]) -> Tally
    ensures { scan_of result ≡ scan_lines scan_start (held_lines text.now) }
{
    let mut tally = Tally {
        bad: false,
        problem: None,
        edges: 0,
        sound: true,
    };
    for line in Lines::new(text) {
        tally = tally.with(line);
    }
    tally
}

// Puts the file's first ten bytes into the buffer, as far as they fit; answers the place behind.
fn put_head(buffer: &mut [u8], sizes: Sizes) -> usize
    requires { sizes.m ≤ 256 }
    ensures { filled buffer.new result ≡ put buffer.old 0 (head_bytes sizes.n sizes.m) }
{
    let [follow_high, follow_low] = (5 + 8 * sizes.m).to_be_bytes();
    let [rows_high, rows_low] = sizes.m.to_be_bytes();
    let head = [
        1,
        0,
        0,
        follow_high,
        follow_low,
        sizes.n,
        rows_high,
        rows_low,
        1,
        0,
    ];
    printout::text(buffer, 0, &head)
}

// Puts the row of an edge line into the buffer, as far as it fits; answers the place behind.
fn put_line(buffer: &mut [u8], at: usize, line: TextLine) -> usize
    ensures { filled buffer.new result ≡ put buffer.old at (line_bytes (line_in line)) }
{
    let TextLine::Edge { one, two } = line else {
        return at;
    };
    let row = [(one % 256) as u8, (two % 256) as u8, 0, 0, 0, 0, 0, 1];
    printout::text(buffer, at, &row)
}

// The second pass: puts the rows of all edge lines of a text into the buffer, as far as they fit.
fn put_rows(text: &[u8], buffer: &mut [u8], from: usize) -> usize
    ensures { filled buffer.new result ≡ put buffer.old from (concat_map line_bytes (held_lines text.now)) }
{
    let mut at = from;
    for line in Lines::new(text) {
        at = put_line(buffer, at, line);
    }
    at
}

/// Reads the text into a network file from the first place of the buffer on, and answers its length in bytes; bytes past it keep their content.
pub fn read(text: &[u8], buffer: &mut [u8]) -> Result<u32, Refusal>
    ensures { record { outcome = read_of result; buffers = buffer.new } ≡ dimacs_call text.now buffer.old }
{
    let sizes = scan(text).checked(buffer.len())?;
    let at = put_head(buffer, sizes);
    put_rows(text, buffer, at);
    Ok(sizes.length())
}
