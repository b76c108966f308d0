//! Cost: the cost vector of a drawn spanning tree.
#![tactic(auto)]

ghost use Rattle.std.specs.Prelude.{◌≡◌};
ghost use Rattle.operations.specs.Operations.{cost_call};
ghost use Rattle.cost.specs.Answers.{costed_of};

use refusals::{Refusal, check};

/// Cost: the cost vector of the drawn rows in the first k places of the buffer.
pub fn cost(file: &[u8], rows: &[u16], buffer: &mut [u32]) -> Result<(), Refusal>
    ensures { record { outcome = costed_of result; buffers = buffer.new } ≡ cost_call file.now rows.now buffer.old }
{
    let path = drawn::drawn(file, rows)?;
    let header = fields::header_of(file);
    let k = header.k as usize;
    check(k <= buffer.len(), Refusal::ShortBuffer)?;
    let costs = vector::vector(file, path);
    let vector = &costs[..k];
    buffer[..k].copy_from_slice(vector);
    Ok(())
}
