//! Reading a slice at any place: past its end there is what the caller names.
#![tactic(auto)]

ghost use Rattle.std.specs.Prelude.{◌≡◌, get_or};

/// What stands at a place of a slice; `past` past its end.
pub fn at<T: Copy>(s: &[T], i: usize, past: T) -> T
    ensures { result ≡ get_or s.now i past }
{
    s.get(i).copied().unwrap_or(past)
}
