//! Open: the checks of a network file, one after the other.
//! Which checks a file meets stands in network_file's specs/File.antt; specs/Answers.antt says what the answer stands for.
//! Behind check 4 the file's length is known (specs/Rows.antt), so that a check of the rows goes over them in whole pieces.
#![tactic(auto)]

ghost use Rattle.std.specs.Prelude.{◌≡◌, ◌&&◌, not, ◌*◌, ◌+◌, ◌/◌, ◌≤◌, eqb, length};
ghost use Rattle.network_file.specs.File.{body_met, byte_at, costs_met, ends_met, kinds_met, length_met, open_of, sizes_of, sizes_sound, states_met, u32_at, version_met, within};
ghost use Rattle.fields.specs.Fields.{sizes_in};
ghost use Rattle.network.specs.Answers.{opened_of};
ghost use Rattle.network.specs.Rows.{Fitting, costs_from};

use fields::{Header, Kind, State};
use refusals::{Refusal, check};

#[tactic(auto, unfolding(network_file::specs::File::version_met))]
fn version_met(file: &[u8]) -> bool
    ensures { result ≡ version_met file.now }
{
    matches!(file, [1 | 2, ..])
}

#[tactic(auto, unfolding(network_file::specs::File::length_met))]
fn length_met(file: &[u8]) -> bool
    ensures { result ≡ length_met file.now }
{
    9 <= file.len() && fields::length_field(file) as usize == file.len() - 5
}

fn sizes_sound(header: Header) -> bool
    ensures { result ≡ sizes_sound (sizes_in header) }
{
    (2..=32).contains(&header.n) && header.m <= 256 && (1..=4).contains(&header.k)
}

fn body_met(file: &[u8], header: Header) -> bool
    requires { sizes_in header ≡ sizes_of file.now }
    ensures { result ≡ body_met file.now }
{
    let m = header.m as usize;
    let k = header.k as usize;
    fields::length_field(file) as usize == 4 + k + m * fields::row_bytes(file)
}

// Whether the ends of a row are nodes, and different ones.
fn ends_sound(n: u8, row: &[u8]) -> bool
    requires { 2 ≤ length row.now }
    ensures { result ≡ (within 1 n (byte_at row.now 0) && (within 1 n (byte_at row.now 1) && not (eqb (byte_at row.now 0) (byte_at row.now 1)))) }
{
    let (first, second) = (row[0], row[1]);
    (1..=n).contains(&first) && (1..=n).contains(&second) && first != second
}

// The number in four bytes.
#[tactic(auto, unfolding(network_file::specs::File::u32_at, network_file::specs::File::u16_at))]
fn u32_in(bytes: &[u8]) -> u32
    requires { 4 ≤ length bytes.now }
    ensures { result ≡ u32_at bytes.now 0 }
{
    u32::from_be_bytes([bytes[0], bytes[1], bytes[2], bytes[3]])
}

// Whether none of the costs in bytes is above 1,000,000.
fn costs_sound(bytes: &[u8]) -> bool
    ensures { result ≡ costs_from bytes.now 0 (length bytes.now / 4) }
{
    bytes.chunks_exact(4).all(|cost| u32_in(cost) <= 1000000)
}

// A file as long as its sizes say, with these.
#[derive(Clone, Copy)]
struct Whole<'a> {
    file: &'a [u8],
    header: Header,
    ghost fitting: { Fitting file.now (sizes_in header) },
}

impl Whole<'_> {
    fn kinds_met(self) -> bool
        ensures { result ≡ kinds_met self.entry.file.now }
    {
        let k = self.header.k as usize;
        self.file[9..9 + k]
            .iter()
            .all(|&byte| Kind::try_from(byte).is_ok())
    }

    fn ends_met(self) -> bool
        ensures { result ≡ ends_met self.entry.file.now }
    {
        let n = self.header.n;
        let rows = &self.file[9 + self.header.k as usize..];
        rows.chunks_exact(fields::row_bytes(self.file))
            .all(|row| ends_sound(n, row))
    }

    #[tactic(auto, using(network_file::proofs::Accepted::state_width_lem))]
    fn costs_met(self) -> bool
        ensures { result ≡ costs_met self.entry.file.now }
    {
        let lead = 4 + fields::state_width(self.file);
        let rows = &self.file[9 + self.header.k as usize..];
        rows.chunks_exact(fields::row_bytes(self.file))
            .all(|row| costs_sound(&row[lead..]))
    }

    fn states_met(self) -> bool
        ensures { result ≡ states_met self.entry.file.now }
    {
        // without state bytes each row is open
        if self.file[0] != 2 {
            return true;
        }
        let rows = &self.file[9 + self.header.k as usize..];
        rows.chunks_exact(fields::row_bytes(self.file))
            .all(|row| State::try_from(row[4]).is_ok())
    }
}

/// Open: the sizes of a network file that meets all checks, else the first that it does not meet.
#[tactic(auto, unfolding(checks::specs::Checks::checked, checks::specs::Checks::first_unmet, network_file::specs::File::file_checks, network_file::specs::File::open_of, network_file::specs::File::sizes_met))]
pub fn open(file: &[u8]) -> Result<Header, Refusal>
    ensures { opened_of result ≡ open_of file.now }
{
    let header = fields::header_of(file);
    check(version_met(file), Refusal::WrongVersion)?;
    check(length_met(file), Refusal::WrongLength)?;
    check(sizes_sound(header), Refusal::WrongSizes)?;
    check(body_met(file, header), Refusal::WrongBody)?;
    let whole = Whole { file, header };
    check(whole.kinds_met(), Refusal::UnknownKind)?;
    check(whole.ends_met(), Refusal::WrongEnds)?;
    check(whole.costs_met(), Refusal::HighCost)?;
    check(whole.states_met(), Refusal::UnknownState)?;
    Ok(header)
}
