//! Sets of numbers below 64, each a word.
#![tactic(auto)]

ghost use Rattle.std.specs.Prelude.{◌≡◌};
ghost use Rattle.words.specs.Words as words;

/// Whether v is a member.
pub fn has(w: u64, v: u8) -> bool
    ensures { result ≡ words.has w v }
{
    v < 64 && (w >> v) % 2 == 1
}

/// The set of v alone.
pub fn bit(v: u8) -> u64
    ensures { result ≡ words.bit v }
{
    if v < 64 { 1 << v } else { 0 }
}

/// The members of a that are none of b.
pub fn minus(a: u64, b: u64) -> u64
    ensures { result ≡ words.minus a b }
{
    a ^ (a & b)
}

/// The members above v.
pub fn above(w: u64, v: u8) -> u64
    ensures { result ≡ words.above w v }
{
    if v < 63 {
        let s = v + 1;
        (w >> s) << s
    } else {
        0
    }
}

/// The least member; 64 where there is none.
pub fn lowest(w: u64) -> u8
    ensures { result ≡ words.lowest w }
{
    w.trailing_zeros() as u8
}

/// The set of the numbers from 1 to n.
pub fn up_to(n: u8) -> u64
    ensures { result ≡ words.up_to n }
{
    minus(above(u64::MAX, 0), above(u64::MAX, n))
}
