//! The fields of a network file by value: its sizes, its rows, their states and their costs, of any file, accepted or not.
//! Where they stand is said in network_file's specs/File.antt; specs/Fields.antt says what the types below stand for.
#![tactic(auto)]

ghost use Rattle.std.specs.Prelude.{◌≡◌, ◌*◌, ◌+◌, ◌≤◌, eqb};
ghost use Rattle.lists.specs.Lists.{pick};
ghost use Rattle.costs.specs.Costs.{cost_at};
ghost use Rattle.costs.specs.Layouts.{is_barred, is_must};
ghost use Rattle.costs.specs.Network.{row_at};
ghost use Rattle.network_file.specs.Bytes.{kind_number};
ghost use Rattle.network_file.specs.File.{byte_at, length_field, network_of, row_bytes, row_start, sizes_of, state_of, state_or, state_width, u16_at, u32_at, version};
ghost use Rattle.fields.specs.Fields.{NamesKind, NamesState, kind_in, row_with, sizes_in, state_in};

use std::error::Error;
use std::fmt;

/// The nodes, the rows and the criteria of a network file.
#[derive(Clone, Copy, Debug, PartialEq, Eq)]
pub struct Header {
    pub n: u8,
    pub m: u16,
    pub k: u8,
}

/// How a criterion's cost comes from its rows' costs: by their sum, by the worst of them, or by the street's closing.
#[derive(Clone, Copy, Debug, PartialEq, Eq)]
pub enum Kind {
    Added,
    Worst,
    Closing,
}

/// A byte that names no kind.
#[derive(Clone, Copy, Debug, PartialEq, Eq)]
pub struct UnknownKind(pub u8);

impl TryFrom<u8> for Kind {
    type Error = UnknownKind;

    ghost try_from_gives = { NamesKind };

    #[tactic(auto, unfolding(network_file::specs::File::kind_of))]
    fn try_from(byte: u8) -> Result<Self, UnknownKind> {
        match byte {
            0 => Ok(Kind::Added),
            1 => Ok(Kind::Worst),
            2 => Ok(Kind::Closing),
            _ => Err(UnknownKind(byte)),
        }
    }
}

impl From<Kind> for u8 {
    ghost from_gives = { λ kind byte. byte ≡ kind_number (kind_in kind) };

    fn from(kind: Kind) -> u8 {
        match kind {
            Kind::Added => 0,
            Kind::Worst => 1,
            Kind::Closing => 2,
        }
    }
}

impl fmt::Display for UnknownKind {
    fn fmt<W: fmt::Write>(&self, f: &mut fmt::Formatter<W>) -> fmt::Result {
        write!(f, "no kind of criterion has number {}", self.0)
    }
}

impl Error for UnknownKind {}

/// Whether a row may be dug, must be, or may not.
#[derive(Clone, Copy, Debug, PartialEq, Eq)]
pub enum State {
    Open,
    Must,
    Barred,
}

/// A byte that names no state.
#[derive(Clone, Copy, Debug, PartialEq, Eq)]
pub struct UnknownState(pub u8);

impl State {
    /// Whether a row of this state must be dug.
    pub fn is_must(self) -> bool
        ensures { result ≡ is_must (state_in self) }
    {
        self == State::Must
    }

    /// Whether a row of this state may not be dug.
    pub fn is_barred(self) -> bool
        ensures { result ≡ is_barred (state_in self) }
    {
        self == State::Barred
    }
}

impl TryFrom<u8> for State {
    type Error = UnknownState;

    ghost try_from_gives = { NamesState };

    #[tactic(auto, unfolding(network_file::specs::File::state_of))]
    fn try_from(byte: u8) -> Result<Self, UnknownState> {
        match byte {
            0 => Ok(State::Open),
            1 => Ok(State::Must),
            2 => Ok(State::Barred),
            _ => Err(UnknownState(byte)),
        }
    }
}

impl fmt::Display for UnknownState {
    fn fmt<W: fmt::Write>(&self, f: &mut fmt::Formatter<W>) -> fmt::Result {
        write!(f, "no state of a row has number {}", self.0)
    }
}

impl Error for UnknownState {}

/// A row of the network without its costs: its two ends, its street and its state.
#[derive(Clone, Copy, Debug, PartialEq, Eq)]
pub struct Row {
    pub first: u8,
    pub second: u8,
    pub street: u16,
    pub state: State,
}

/// Two bytes as a number, the high one first.
pub fn u16_of(high: u8, low: u8) -> u16
    ensures { result ≡ high * 256 + low }
{
    u16::from_be_bytes([high, low])
}

/// Two such numbers as one.
pub fn u32_of(high: u16, low: u16) -> u32
    ensures { result ≡ high * 65536 + low }
{
    high as u32 * 65536 + low as u32
}

#[tactic(auto, unfolding(network_file::specs::File::u16_at))]
fn u16_at(file: &[u8], at: usize) -> u16
    requires { at ≤ 1000000000 }
    ensures { result ≡ u16_at file.now at }
{
    // where both bytes are there one test does
    if at + 2 <= file.len() {
        return u16_of(file[at], file[at + 1]);
    }
    u16_of(slices::at(file, at, 0), slices::at(file, at + 1, 0))
}

#[tactic(auto, unfolding(network_file::specs::File::u32_at))]
fn u32_at(file: &[u8], at: usize) -> u32
    requires { at ≤ 900000000 }
    ensures { result ≡ u32_at file.now at }
{
    u32_of(u16_at(file, at), u16_at(file, at + 2))
}

/// The length field: how many bytes are to follow it.
pub fn length_field(file: &[u8]) -> u32
    ensures { result ≡ length_field file.now }
{
    u32_at(file, 1)
}

/// The sizes as they stand in the file, met or not.
pub fn header_of(file: &[u8]) -> Header
    ensures { sizes_in result ≡ sizes_of file.now }
{
    Header {
        n: slices::at(file, 5, 0),
        m: u16_at(file, 6),
        k: slices::at(file, 8, 0),
    }
}

// The state that a byte names; open where it names none.
fn state_or_open(byte: u8) -> State
    ensures { state_in result ≡ state_or (state_of byte) }
{
    State::try_from(byte).unwrap_or(State::Open)
}

/// The bytes of a row's state: one in version 2, none in version 1.
#[tactic(auto, unfolding(network_file::specs::File::state_width))]
pub fn state_width(file: &[u8]) -> usize
    ensures { result ≡ state_width file.now }
{
    if slices::at(file, 0, 0) == 2 { 1 } else { 0 }
}

/// The bytes of a row.
#[tactic(auto, using(network_file::proofs::Accepted::state_width_lem))]
pub fn row_bytes(file: &[u8]) -> usize
    ensures { result ≡ row_bytes file.now }
{
    let k = slices::at(file, 8, 0) as usize;
    4 + state_width(file) + 4 * k
}

// Where a row begins.
fn row_start(file: &[u8], row: u16) -> usize
    ensures { (result ≡ row_start file.now row) × (result ≤ 100000000) }
{
    let k = slices::at(file, 8, 0) as usize;
    9 + k + row as usize * row_bytes(file)
}

// The state byte of a row that begins at a place.
fn state_at(file: &[u8], at: usize) -> u8
    requires { at ≤ 100000000 }
    ensures { result ≡ pick (eqb (version file.now) 2) (byte_at file.now (at + 4)) 0 }
{
    let version = slices::at(file, 0, 0);
    if version == 2 {
        slices::at(file, at + 4, 0)
    } else {
        0
    }
}

// As `row_at`, byte by byte, also of a file that is cut short.
fn row_cut(file: &[u8], row: usize) -> Row
    ensures { row_with result (row_at (network_of file.now) row).costs ≡ row_at (network_of file.now) row }
{
    let header = header_of(file);
    let m = header.m as usize;
    if row < m {
        let at = row_start(file, row as u16);
        let state = state_or_open(state_at(file, at));
        Row {
            first: slices::at(file, at, 0),
            second: slices::at(file, at + 1, 0),
            street: u16_at(file, at + 2),
            state,
        }
    } else {
        Row {
            first: 0,
            second: 0,
            street: 0,
            state: State::Open,
        }
    }
}

/// The ends, the street and the state of a row; all 0 and open where the file has no such row.
pub fn row_at(file: &[u8], row: usize) -> Row
    ensures { row_with result (row_at (network_of file.now) row).costs ≡ row_at (network_of file.now) row }
{
    // where the sizes and the row are there two tests of the length do
    if 9 <= file.len() {
        let header = header_of(file);
        let m = header.m as usize;
        if row < m {
            let at = row_start(file, row as u16);
            if at + 5 <= file.len() {
                let state = state_or_open(state_at(file, at));
                return Row {
                    first: file[at],
                    second: file[at + 1],
                    street: u16_at(file, at + 2),
                    state,
                };
            }
        }
    }
    row_cut(file, row)
}

/// The street of a row; 0 where the file has no such row.
pub fn street_at(file: &[u8], row: usize) -> u16
    ensures { result ≡ (row_at (network_of file.now) row).street }
{
    let header = header_of(file);
    let m = header.m as usize;
    if row < m {
        u16_at(file, row_start(file, row as u16) + 2)
    } else {
        0
    }
}

/// The cost of a row in a criterion; 0 where the file has no such row or criterion.
#[tactic(auto, using(network_file::proofs::Accepted::state_width_lem))]
pub fn cost_at(file: &[u8], criterion: usize, row: usize) -> u32
    ensures { result ≡ cost_at (network_of file.now) criterion row }
{
    let header = header_of(file);
    let m = header.m as usize;
    let k = header.k as usize;
    if row < m {
        if criterion < k {
            let at = row_start(file, row as u16) + 4 + state_width(file);
            return u32_at(file, at + 4 * criterion);
        }
    }
    0
}
