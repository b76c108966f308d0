//! Connection charge: a drawn spanning tree's total of one added criterion, split among nodes 2 to n.
#![tactic(auto)]

ghost use Rattle.std.specs.Prelude.{◌≡◌, ◌<◌, ◌≤◌, length};
ghost use Rattle.operations.specs.Operations.{over};
ghost use Rattle.charges.specs.Charges.{borne_by, charge_call, charges_by};
ghost use Rattle.charge.specs.Answers.{added_byte, charge_in, charged_of};

use fields::Kind;
use refusals::{Refusal, check};

/// A total that is split among nodes: the whole quotient, and how many of them bear one more.
#[derive(Clone, Copy, Debug, PartialEq, Eq)]
pub struct Split {
    pub quotient: u32,
    pub remainder: u32,
}

impl Split {
    // What a node bears: one more up to node remainder + 1.
    #[tactic(auto, unfolding(charges::specs::Charges::borne_by))]
    fn borne(self, node: usize) -> u32
        requires { self.quotient < 4294967295 }
        ensures { result ≡ borne_by (charge_in self) node }
    {
        if node <= self.remainder as usize + 1 {
            self.quotient + 1
        } else {
            self.quotient
        }
    }
}

// Whether there is such a criterion, counted from 0, and its kind is added.
#[tactic(auto, unfolding(network_file::specs::File::kind_of))]
fn is_added(file: &[u8], criterion: u32) -> bool
    ensures { result ≡ added_byte file.now criterion }
{
    let header = fields::header_of(file);
    let byte = slices::at(file, 9 + criterion as usize, 0);
    criterion < header.k as u32 && matches!(Kind::try_from(byte), Ok(Kind::Added))
}

// Writes what so many nodes bear, from node 2 on, over the first places of the buffer.
fn put(buffer: &mut [u32], nodes: usize, split: Split)
    requires { (nodes ≤ length buffer.old) × (split.quotient < 4294967295) }
    ensures { buffer.new ≡ over (charges_by (charge_in split) nodes) buffer.old }
{
    for i in 0..nodes {
        let node = i + 2;
        buffer[i] = split.borne(node);
    }
}

/// Connection charge: the charges of nodes 2 to n in the first n - 1 places of the buffer.
pub fn charge(
    file: &[u8],
    rows: &[u16],
    criterion: u32,
    buffer: &mut [u32],
) -> Result<Split, Refusal>
    ensures { record { outcome = charged_of result; buffers = buffer.new } ≡ charge_call file.now rows.now criterion buffer.old }
{
    let path = drawn::drawn(file, rows)?;
    let header = fields::header_of(file);
    let n = header.n as u32;
    let nodes = n - 1;
    check(nodes as usize <= buffer.len(), Refusal::ShortBuffer)?;
    check(is_added(file, criterion), Refusal::NotAdded)?;
    let total = vector::added(file, criterion as usize, path) as u32;
    let quotient = total / nodes;
    let remainder = total % nodes;
    let split = Split {
        quotient,
        remainder,
    };
    put(buffer, nodes as usize, split);
    Ok(split)
}
