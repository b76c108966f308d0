//! Two network files that are to have one frame, the same nodes and the same kinds in sequence: the checks of the first, those of the second, then 18.
//! What that comes to is said in specs/Frame.antt; specs/Answers.antt says what the answer stands for.
#![tactic(auto)]

ghost use Rattle.std.specs.Prelude.{◌≡◌};
ghost use Rattle.std.proofs.Math.Option.{none};
ghost use Rattle.checks.specs.Checks.{first_unmet};
ghost use Rattle.fields.specs.Fields.{sizes_in};
ghost use Rattle.network_file.specs.File.{file_checks, network_of, sizes_of};
ghost use Rattle.network_file.specs.Frames.{same_frame};
ghost use Rattle.frames.specs.Answers.{framed_of};
ghost use Rattle.frames.specs.Frame.{frame_of};

use fields::Header;
use refusals::{Refusal, check};

// Whether two files that are accepted have one frame.
fn same_frame(first: &[u8], one: Header, second: &[u8], two: Header) -> bool
    requires { (first_unmet (file_checks first.now) ≡ none) × (sizes_in one ≡ sizes_of first.now)
        × (first_unmet (file_checks second.now) ≡ none) × (sizes_in two ≡ sizes_of second.now) }
    ensures { result ≡ same_frame (network_of first.now) (network_of second.now) }
{
    let kinds = &first[9..9 + one.k as usize];
    let others = &second[9..9 + two.k as usize];
    one.n == two.n && kinds == others
}

/// The sizes of two files that meet all checks and have one frame, else the first check not met.
#[tactic(auto, using(crate::proofs::Opening::first_stops, crate::proofs::Opening::second_stops, crate::proofs::Opening::frame_other, crate::proofs::Opening::frame_met))]
pub fn open_both(first: &[u8], second: &[u8]) -> Result<(Header, Header), Refusal>
    ensures { framed_of result ≡ frame_of first.now second.now }
{
    let one = network::open(first)?;
    let two = network::open(second)?;
    check(same_frame(first, one, second, two), Refusal::OtherFrame)?;
    Ok((one, two))
}
