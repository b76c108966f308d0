//! dimacs: reads the standard input and writes to the standard output: a network file for a DIMACS edge file, or such text for a network file, which begins
//! with its version, a byte of 1 or 2. A refusal is said on the standard error, and nothing is written then.
#![tactic(auto)]

use refusals::Refusal;

// The descriptor of the standard input.
const STDIN_FILENO: i32 = 0;

// The descriptor of the standard output.
const STDOUT_FILENO: i32 = 1;

// The descriptor of the standard error.
const STDERR_FILENO: i32 = 2;

// Converts the input, a network file if it begins with 1 or 2, as no text does; answers how many bytes are put into the buffer.
fn convert(input: &[u8], out: &mut [u8]) -> Result<u32, Refusal> {
    match input.first() {
        Some(1 | 2) => edge_write::write(input, out),
        _ => edge_read::read(input, out),
    }
}

// What is turned away.
fn print_refusal(out: &mut [u8], refusal: Refusal) {
    let said = printout::text(out, 0, b"refused");
    let numbered = printout::number(out, said, refusal.number() as u64);
    let end = printout::ended(out, numbered);
    io::write_all(STDERR_FILENO, printout::shown(out, end));
}

// Whether there is more to read: an input is not cut off.
fn is_longer() -> bool {
    let mut next = [0; 1];
    io::read_full(STDIN_FILENO, &mut next) != 0
}

fn main() {
    let mut space = io::large_buffer();
    let got = io::read_full(STDIN_FILENO, &mut space);
    if is_longer() {
        io::write_all(
            STDERR_FILENO,
            b"dimacs: the input has more than 65,536 bytes\n",
        );
        return;
    }
    let mut out = io::large_buffer();
    match convert(printout::shown(&space, got), &mut out) {
        Ok(length) => {
            io::write_all(STDOUT_FILENO, printout::shown(&out, length as usize));
        }
        Err(refusal) => print_refusal(&mut out, refusal),
    }
}
