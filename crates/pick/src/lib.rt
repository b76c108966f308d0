//! Pick: the places of one tree, as a part of the caller's page.
#![tactic(auto)]

ghost use Rattle.std.specs.Prelude.{◌≡◌};
ghost use Rattle.operations.specs.Operations.{pick_call};

/// The places of tree t of a page of trees over n nodes; an empty part where n is out of range or the page ends before.
pub fn pick(n: u8, page: &[u16], t: usize) -> &[u16]
    ensures { result.now ≡ pick_call n page.now t }
{
    if n < 2 {
        return &page[..0];
    }
    if 32 < n {
        return &page[..0];
    }
    let width = n as usize - 1;
    // divided first: the product is formed only where it is known to fit
    let trees = page.len() / width;
    if t < trees {
        let from = t * width;
        let to = from + width;
        return &page[from..to];
    }
    &page[..0]
}
