//! Lines of text, put into a buffer that is lent: words and numbers parted by single spaces, each from a place on and as far as it fits.
//! The longest line of the printout has under 250 bytes: a tree of 31 rows with four costs.
#![tactic(auto)]

ghost use Rattle.std.specs.Prelude.{◌≡◌, ◌∷◌, [], ◌+◌, ◌≤◌, ℕ, length, map, take};
ghost use Rattle.std.proofs.Math.Seq.{paste};
ghost use Rattle.printout.specs.Text.{decimal_of, filled, numbers_of, put};

// The buffer and the place are two arguments, and no struct that holds both. Tried: the proof of a caller doesn't close, since a method that is lent the struct
// may put another buffer into it, and a contract can't tell that what was lent to its maker is what it holds.

/// What is put as a number.
pub trait AsNumber: Copy {
    ghost value: { Self → ℕ };

    /// The number.
    fn as_number(self) -> u64
        ensures { result ≡ value self };
}

impl AsNumber for u16 {
    ghost value = { λ n. n };

    fn as_number(self) -> u64 {
        u64::from(self)
    }
}

impl AsNumber for u32 {
    ghost value = { λ n. n };

    fn as_number(self) -> u64 {
        u64::from(self)
    }
}

// Puts these bytes into the buffer, where all of them fit.
fn put_all(out: &mut [u8], at: usize, bytes: &[u8])
    requires { at + length bytes.now ≤ length out.old }
    ensures { out.new ≡ paste out.old at bytes.now (length bytes.now) }
{
    // By elements: a copy of the whole part would ask memmove of a C program that links the library.
    for i in 0..bytes.len() {
        out[at + i] = bytes[i];
    }
}

// Puts these bytes into the buffer, as far as they fit; answers the place behind.
fn put_some(out: &mut [u8], at: usize, bytes: &[u8]) -> usize
    ensures { filled out.new result ≡ put out.old at bytes.now }
{
    let mut place = at;
    for byte in bytes {
        if place >= out.len() {
            break;
        }
        out[place] = *byte;
        place += 1;
    }
    place
}

/// Puts these bytes into the buffer, as far as they fit; answers the place behind.
pub fn text(out: &mut [u8], at: usize, bytes: &[u8]) -> usize
    ensures { filled out.new result ≡ put out.old at bytes.now }
{
    // A piece that fits goes by its own length, which the compiler writes out where it knows that, as of a space.
    if bytes.len() <= out.len() && at <= out.len() - bytes.len() {
        put_all(out, at, bytes);
        return at + bytes.len();
    }
    put_some(out, at, bytes)
}

/// A line feed.
pub fn ended(out: &mut [u8], at: usize) -> usize
    ensures { filled out.new result ≡ put out.old at (10 ∷ []) }
{
    text(out, at, b"\n")
}

/// A space and the number's decimal digits.
pub fn number(out: &mut [u8], at: usize, n: u64) -> usize
    ensures { filled out.new result ≡ put out.old at (32 ∷ decimal_of n) }
{
    let mut digits = [0u8; 20];
    let k = io::decimal(n, &mut digits);
    let spaced = text(out, at, b" ");
    text(out, spaced, &digits[..k])
}

/// These numbers, as the rows of a tree or the costs of a vector.
pub fn numbers<N: AsNumber>(out: &mut [u8], at: usize, numbers: &[N]) -> usize
    ensures { filled out.new result ≡ put out.old at (numbers_of (map N.value numbers.now)) }
{
    let mut place = at;
    for n in numbers {
        place = number(out, place, n.as_number());
    }
    place
}

/// The first k costs of a vector; it has four.
pub fn vector(out: &mut [u8], at: usize, vector: [u32; 4], k: usize) -> usize
    ensures { filled out.new result ≡ put out.old at (numbers_of (take k vector)) }
{
    numbers(out, at, &vector[..k.min(4)])
}

/// What stands in the buffer before a place.
pub fn shown(out: &[u8], at: usize) -> &[u8]
    ensures { result.now ≡ take at out.now }
{
    &out[..at.min(out.len())]
}
