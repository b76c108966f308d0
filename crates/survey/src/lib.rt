//! A newer survey over an older, as one network file of version 2 in a buffer that is lent: the older rows that stand are counted first, so that nothing is written
//! where it does not fit. What a call comes to is said in surveys' specs/Surveys.antt; specs/Answers.antt says what the answer stands for.
#![tactic(auto)]

ghost use Rattle.std.specs.Prelude.{◌≡◌, ◌&&◌, ◌||◌, ◌<◌, ◌≤◌, eqb, length};
ghost use Rattle.std.proofs.Math.Option.{none};
ghost use Rattle.lists.specs.Lists.{concat_map};
ghost use Rattle.checks.specs.Checks.{first_unmet};
ghost use Rattle.costs.specs.Network.{row_at};
ghost use Rattle.fields.specs.Fields.{sizes_in, state_in};
ghost use Rattle.frames.specs.Frame.{Framing};
ghost use Rattle.network.specs.Rows.{Fitting};
ghost use Rattle.network_file.specs.Bytes.{bytes_of_row, state_number, u32_bytes};
ghost use Rattle.network_file.specs.File.{file_checks, network_of, sizes_of};
ghost use Rattle.printout.specs.Text.{filled, put};
ghost use Rattle.surveys.specs.Surveys.{has_pair, stands, survey_call, survivors};
ghost use Rattle.survey.specs.Answers.{surveyed_of};
ghost use Rattle.survey.specs.Head.{head_bytes};

use fields::{Header, State};
use refusals::{Refusal, check};

// One of the two surveys: its file, as long as the sizes say, with these.
#[derive(Clone, Copy, Debug)]
struct Surveyed<'a> {
    file: &'a [u8],
    header: Header,
    ghost fitting: { Fitting file.now (sizes_in header) },
}

// Whether a row with these ends joins u and v, either way round.
fn is_pair(u: u8, v: u8, first: u8, second: u8) -> bool
    ensures { result ≡ ((eqb first u && eqb second v) || (eqb first v && eqb second u)) }
{
    (first, second) == (u, v) || (first, second) == (v, u)
}

// The byte of a state. As a From it would stand in crate fields, for this one caller.
fn state_byte(state: State) -> u8
    ensures { result ≡ state_number (state_in state) }
{
    match state {
        State::Open => 0,
        State::Must => 1,
        State::Barred => 2,
    }
}

// Puts a number of four bytes into the buffer, as far as it fits; answers the place behind.
fn put_u32(buffer: &mut [u8], at: usize, x: u32) -> usize
    ensures { filled buffer.new result ≡ put buffer.old at (u32_bytes x) }
{
    printout::text(buffer, at, &x.to_be_bytes())
}

impl Surveyed<'_> {
    // Whether some row joins u and v.
    fn has_pair(&self, u: u8, v: u8) -> bool
        ensures { result ≡ has_pair u v (network_of self.now.file.now).rows }
    {
        let rows = &self.file[9 + self.header.k as usize..];
        !rows
            .chunks_exact(fields::row_bytes(self.file))
            .all(|row| !is_pair(u, v, row[0], row[1]))
    }

    // Whether a row stands under a newer survey: no row of the newer joins its ends.
    fn stands(&self, row: usize, newer: &Surveyed<'_>) -> bool
        requires { row < self.now.header.m }
        ensures { result ≡ stands (network_of newer.now.file.now).rows (row_at (network_of self.now.file.now) row) }
    {
        let at = 9 + self.header.k as usize + row * fields::row_bytes(self.file);
        !newer.has_pair(self.file[at], self.file[at + 1])
    }

    // How many rows stand under a newer survey.
    fn survivor_count(&self, newer: &Surveyed<'_>) -> usize
        ensures count { result ≡ length (survivors (network_of self.now.file.now).rows (network_of newer.now.file.now).rows) }
        ensures few { result ≤ 65535 }
    {
        let mut count = 0;
        for r in 0..self.header.m as usize {
            if self.stands(r, newer) {
                count += 1;
            }
        }
        count
    }

    // Puts the costs of a row into the buffer, as far as they fit; answers the place behind.
    fn put_costs(&self, row: usize, buffer: &mut [u8], from: usize) -> usize
        requires { row < self.now.header.m }
        ensures { filled buffer.new result ≡ put buffer.old from (concat_map u32_bytes (row_at (network_of self.now.file.now) row).costs) }
    {
        let mut at = from;
        for c in 0..self.header.k as usize {
            at = put_u32(buffer, at, fields::cost_at(self.file, c, row));
        }
        at
    }

    // Puts a row, as a file of version 2 has it, into the buffer, as far as it fits; answers the place behind.
    fn put_row(&self, row: usize, buffer: &mut [u8], at: usize) -> usize
        requires { row < self.now.header.m }
        ensures { filled buffer.new result ≡ put buffer.old at (bytes_of_row 2 (row_at (network_of self.now.file.now) row)) }
    {
        let lead = fields::row_at(self.file, row);
        let [street_high, street_low] = lead.street.to_be_bytes();
        let bytes = [
            lead.first,
            lead.second,
            street_high,
            street_low,
            state_byte(lead.state),
        ];
        let costs = printout::text(buffer, at, &bytes);
        self.put_costs(row, buffer, costs)
    }

    // Puts all rows into the buffer, as far as they fit; answers the place behind.
    fn put_rows(&self, buffer: &mut [u8], from: usize) -> usize
        ensures { filled buffer.new result ≡ put buffer.old from (concat_map (bytes_of_row 2) (network_of self.now.file.now).rows) }
    {
        let mut at = from;
        for r in 0..self.header.m as usize {
            at = self.put_row(r, buffer, at);
        }
        at
    }

    // Puts the rows that stand under a newer survey into the buffer, as far as they fit; answers the place behind.
    fn put_survivors(&self, newer: &Surveyed<'_>, buffer: &mut [u8], from: usize) -> usize
        ensures { filled buffer.new result
            ≡ put buffer.old from (concat_map (bytes_of_row 2) (survivors (network_of self.now.file.now).rows (network_of newer.now.file.now).rows)) }
    {
        let mut at = from;
        for r in 0..self.header.m as usize {
            if self.stands(r, newer) {
                at = self.put_row(r, buffer, at);
            }
        }
        at
    }

    // Puts what stands before m rows into the buffer, as far as it fits, with the file's nodes and kinds; answers the place behind.
    fn put_head(&self, m: u16, buffer: &mut [u8]) -> usize
        requires { (first_unmet (file_checks self.now.file.now) ≡ none) × (m ≤ 256) }
        ensures { filled buffer.new result ≡ put buffer.old 0 (head_bytes (network_of self.now.file.now) m) }
    {
        let k = self.header.k as usize;
        let follow = 4 + k + m as usize * (5 + 4 * k);
        let [rows_high, rows_low] = m.to_be_bytes();
        let version = printout::text(buffer, 0, b"\x02");
        let length = put_u32(buffer, version, follow as u32);
        let sizes = [self.header.n, rows_high, rows_low, self.header.k];
        let kinds = printout::text(buffer, length, &sizes);
        printout::text(buffer, kinds, &self.file[9..9 + k])
    }
}

// The newer survey over the older, of files that are accepted and have one frame.
fn accepted_survey(
    older: &Surveyed<'_>,
    newer: &Surveyed<'_>,
    buffer: &mut [u8],
) -> Result<u32, Refusal>
    requires { Framing older.now.file.now newer.now.file.now (record { first = sizes_in older.now.header; second = sizes_in newer.now.header }) }
    ensures { record { outcome = surveyed_of result; buffers = buffer.new } ≡ survey_call older.now.file.now newer.now.file.now buffer.old }
{
    let standing = older.survivor_count(newer);
    let m = standing + newer.header.m as usize;
    check(m <= 256, Refusal::TooManyRows)?;
    let k = older.header.k as usize;
    let length = 9 + k + m * (5 + 4 * k);
    check(length <= buffer.len(), Refusal::ShortBuffer)?;
    let headed = older.put_head(m as u16, buffer);
    let stood = older.put_survivors(newer, buffer, headed);
    newer.put_rows(buffer, stood);
    Ok(length as u32)
}

/// Writes the newer survey over the older as one file from the first place of the buffer on, and answers its length in bytes; bytes past it keep their content.
pub fn survey(older: &[u8], newer: &[u8], buffer: &mut [u8]) -> Result<u32, Refusal>
    ensures { record { outcome = surveyed_of result; buffers = buffer.new } ≡ survey_call older.now newer.now buffer.old }
{
    let (first, second) = frames::open_both(older, newer)?;
    let older = Surveyed {
        file: older,
        header: first,
    };
    let newer = Surveyed {
        file: newer,
        header: second,
    };
    accepted_survey(&older, &newer, buffer)
}
