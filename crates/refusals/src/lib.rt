//! Why a call is refused: the first check that is not met, of the checks of documents 01 and 02 in their order.
//! specs/Refusals.antt says which number each has there, and what a result that may be refused comes to.
#![tactic(auto)]

ghost use Rattle.std.specs.Prelude.{◌≡◌, false, true, MatchResult};
ghost use Rattle.refusals.specs.Refusals.{number_of};

use std::error::Error;
use std::fmt;

/// The check that is not met.
#[derive(Clone, Copy, Debug, PartialEq, Eq)]
pub enum Refusal {
    /// 1: the file is empty, or its version is not 1 or 2.
    WrongVersion,
    /// 2: the file has fewer than 9 bytes, or its length field is not its length less 5.
    WrongLength,
    /// 3: the nodes, the rows or the criteria are out of range.
    WrongSizes,
    /// 4: the length is not that of so many rows and criteria.
    WrongBody,
    /// 5: a kind byte is above 2.
    UnknownKind,
    /// 6: a row has an end that is 0 or above n, or equal ends.
    WrongEnds,
    /// 7: a cost is above 1,000,000.
    HighCost,
    /// 8: not n - 1 rows are drawn.
    WrongRowCount,
    /// 9: the number of a drawn row is m or more.
    UnknownRow,
    /// 10: the drawn rows are no spanning tree.
    NotATree,
    /// 11: a buffer or a table is too short; of an office, it is not 1 or 2, or its tables and counts don't fit.
    ShortBuffer,
    /// 12: no spanning tree exists.
    NoTree,
    /// 13: a spanning tree is not written as its minimal path.
    NotMinimal,
    /// 14: a state byte is above 2.
    UnknownState,
    /// 15: a spanning tree breaks a row's state.
    BrokenState,
    /// 16: a line of an edge file has none of the forms, or stands where it may not; or there is no `p` line.
    WrongLine,
    /// 17: fewer or more edge lines than the `p` line says.
    WrongEdgeCount,
    /// 18: the two files have different nodes, criteria or kinds.
    OtherFrame,
    /// 19: there would be more than 256 rows.
    TooManyRows,
    /// 22: there is no such criterion, or its kind is not added.
    NotAdded,
    /// 24: the office's half of the table has no room.
    FullHalf,
    /// 25: there are more than 4,000,000,000 trees.
    TooManyTrees,
    /// 26: the index's spacing is out of range, or the index does not lead to the tree.
    NotIndexed,
}

impl Refusal {
    /// The number of the check.
    pub fn number(self) -> u8
        ensures { result ≡ number_of self }
    {
        match self {
            Refusal::WrongVersion => 1,
            Refusal::WrongLength => 2,
            Refusal::WrongSizes => 3,
            Refusal::WrongBody => 4,
            Refusal::UnknownKind => 5,
            Refusal::WrongEnds => 6,
            Refusal::HighCost => 7,
            Refusal::WrongRowCount => 8,
            Refusal::UnknownRow => 9,
            Refusal::NotATree => 10,
            Refusal::ShortBuffer => 11,
            Refusal::NoTree => 12,
            Refusal::NotMinimal => 13,
            Refusal::UnknownState => 14,
            Refusal::BrokenState => 15,
            Refusal::WrongLine => 16,
            Refusal::WrongEdgeCount => 17,
            Refusal::OtherFrame => 18,
            Refusal::TooManyRows => 19,
            Refusal::NotAdded => 22,
            Refusal::FullHalf => 24,
            Refusal::TooManyTrees => 25,
            Refusal::NotIndexed => 26,
        }
    }
}

impl From<Refusal> for u32 {
    ghost from_gives = { λ refusal number. number ≡ number_of refusal };

    fn from(refusal: Refusal) -> u32 {
        u32::from(refusal.number())
    }
}

impl fmt::Display for Refusal {
    fn fmt<W: fmt::Write>(&self, f: &mut fmt::Formatter<W>) -> fmt::Result {
        f.write_str(match self {
            Refusal::WrongVersion => "the file has no version 1 or 2",
            Refusal::WrongLength => "the file's length field is wrong",
            Refusal::WrongSizes => "the nodes, rows or criteria are out of range",
            Refusal::WrongBody => "the file is not as long as its rows and criteria",
            Refusal::UnknownKind => "a kind byte names no kind",
            Refusal::WrongEnds => "a row's ends are not two different nodes",
            Refusal::HighCost => "a cost is above 1,000,000",
            Refusal::WrongRowCount => "the drawn rows are not one fewer than the nodes",
            Refusal::UnknownRow => "a drawn row is not in the file",
            Refusal::NotATree => "the drawn rows are no spanning tree",
            Refusal::ShortBuffer => "a buffer or a table does not fit",
            Refusal::NoTree => "no spanning tree exists",
            Refusal::NotMinimal => "the spanning tree is not written as its minimal path",
            Refusal::UnknownState => "a state byte names no state",
            Refusal::BrokenState => "the spanning tree breaks a row's state",
            Refusal::WrongLine => "the text is not that of an edge file",
            Refusal::WrongEdgeCount => "the edge lines are not as many as the text says",
            Refusal::OtherFrame => "the two files differ in nodes, criteria or kinds",
            Refusal::TooManyRows => "there would be more than 256 rows",
            Refusal::NotAdded => "no such criterion is added",
            Refusal::FullHalf => "the office's half of the table is full",
            Refusal::TooManyTrees => "there are more than 4,000,000,000 trees",
            Refusal::NotIndexed => "the index does not lead to the tree",
        })
    }
}

impl Error for Refusal {}

/// Goes on where a check is met, and else refuses by it.
pub fn check(met: bool, refusal: Refusal) -> Result<(), Refusal>
    ensures { MatchResult result (λ _. met ≡ true) (λ e. (met ≡ false) × (e ≡ refusal)) }
{
    if met { Ok(()) } else { Err(refusal) }
}
