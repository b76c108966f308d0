//! Order: the minimal path of a drawn spanning tree.
#![tactic(auto)]

ghost use Rattle.std.specs.Prelude.{◌≡◌};
ghost use Rattle.operations.specs.Operations.{order_call};
ghost use Rattle.order.specs.Answers.{ordered_of};

use refusals::{Refusal, check};

/// Order: the minimal path of the drawn rows in the first n - 1 places of the buffer.
pub fn order(file: &[u8], rows: &[u16], buffer: &mut [u16]) -> Result<(), Refusal>
    ensures { record { outcome = ordered_of result; buffers = buffer.new } ≡ order_call file.now rows.now buffer.old }
{
    let path = drawn::drawn(file, rows)?;
    let places = steps::rows(&path);
    check(places.len() <= buffer.len(), Refusal::ShortBuffer)?;
    buffer[..places.len()].copy_from_slice(places);
    Ok(())
}
