//! treelist: reads a network file from the standard input and prints its trees, in list order, and its front (document 01).
//! Pages of 64 trees, a front of 512 rows; of a longer input the first 65,536 bytes are the file.
#![tactic(auto)]

ghost use Rattle.std.specs.Prelude.{◌≡◌, [], ◌-◌, ◌^◌, ◌≤◌, IfOk, min, length, replicate, take};
ghost use Rattle.operations.specs.Operations.{layouts_in, page_call};
ghost use Rattle.page.specs.Answers.{paged_of};
ghost use Rattle.treelist.specs.Given.{Given};

use chart::Chart;
use fields::Header;
use fill::Filled;
use fronted::Rows;
use printout::AsNumber;
use refusals::Refusal;

// The descriptor of the standard input.
const STDIN_FILENO: i32 = 0;

// The descriptor of the standard output.
const STDOUT_FILENO: i32 = 1;

// The lines stand one behind the other in a buffer, up to a place; it is written where the next may not fit, behind the list and at the end.
#[derive(Drop)]
struct Printout {
    buffer: [u8; 65536],
    at: usize,
}

impl Printout {
    fn text(&mut self, bytes: &[u8]) {
        self.at = printout::text(&mut self.buffer, self.at, bytes);
    }

    fn number(&mut self, n: u64) {
        self.at = printout::number(&mut self.buffer, self.at, n);
    }

    fn numbers<N: AsNumber>(&mut self, numbers: &[N]) {
        self.at = printout::numbers(&mut self.buffer, self.at, numbers);
    }

    // Ends a line; where fewer than 512 places are left for the next, the buffer is written.
    fn ended(&mut self) {
        self.at = printout::ended(&mut self.buffer, self.at);
        if self.buffer.len().saturating_sub(self.at) < 512 {
            self.flush();
        }
    }

    fn flush(&mut self) {
        io::write_all(STDOUT_FILENO, printout::shown(&self.buffer, self.at));
        self.at = 0;
    }

    // The only line of a file or a network that is turned away.
    fn refused(&mut self, refusal: Refusal) {
        self.text(b"refused");
        self.number(refusal.number() as u64);
        self.ended();
    }

    // The first line.
    fn sizes(&mut self, h: Header) {
        self.text(b"network");
        self.numbers(&[h.n as u16, h.m, h.k as u16]);
        self.ended();
    }

    // A tree line: the path's rows, then the first k costs of its vector.
    fn tree(&mut self, rows: &[u16], vector: [u32; 4], k: usize) {
        self.text(b"tree");
        self.numbers(rows);
        self.text(b" cost");
        self.at = printout::vector(&mut self.buffer, self.at, vector, k);
        self.ended();
    }

    // A front line: the vector, then its witness's rows.
    fn front(&mut self, vector: &[u32], rows: &[u16]) {
        self.text(b"front");
        self.numbers(vector);
        self.text(b" tree");
        self.numbers(rows);
        self.ended();
    }

    // The last line: both counts, and the front's mark.
    fn end(&mut self, trees: u64, rows: usize, whole: bool) {
        self.text(b"end trees");
        self.number(trees);
        self.text(b" front");
        self.number(rows as u64);
        self.text(if whole { b" whole".as_slice() } else { b" cut" });
        self.ended();
    }
}

// The first trees of a page.
fn print_page(
    out: &mut Printout,
    file: &[u8],
    chart: &Chart,
    h: Header,
    page: &[u16],
    count: usize,
) {
    for t in 0..count {
        let rows = pick::pick(h.n, page, t);
        let path = trace::trace(chart, rows);
        out.tree(rows, vector::vector(file, path), h.k as usize);
    }
}

// The places of a tree by value; it has at most 31.
fn by_value(places: &[u16]) -> [u16; 31]
    ensures long { length result ≡ 31 }
    ensures copy { length places.now ≤ 31 → take (length places.now) result ≡ places.now }
{
    let mut tree = [0; 31];
    let n = places.len().min(31);
    tree[..n].copy_from_slice(&places[..n]);
    tree
}

// The pages one after the other, each after the last tree of the one before; answers how many trees there are, held at the greatest number of 64 bits.
fn print_list(out: &mut Printout, file: &[u8], chart: &Chart, h: Header, page: &mut [u16]) -> u64
    requires { Given file.now h × (h.n - 1 ≤ length page.old) }
    ensures { result ≡ min (length (layouts_in file.now)) (2 ^ 64 - 1) }
{
    let width = h.n as usize - 1;
    // No heap: the last tree of a page is kept by value, and the first start has no rows of it.
    let mut start = [0; 31];
    let mut len = 0;
    let mut total: u64 = 0;
    loop {
        let Ok(Filled { count, more }) = page::page(file, page, &start[..len]) else {
            return total;
        };
        print_page(out, file, chart, h, page, count);
        total = total.saturating_add(count as u64);
        if !more {
            return total;
        }
        start = by_value(pick::pick(h.n, page, count - 1));
        len = width;
    }
}

// The list in pages of 64 trees; answers how many trees there are.
fn print_trees(out: &mut Printout, file: &[u8], h: Header) -> u64
    requires { Given file.now h }
    ensures { result ≡ min (length (layouts_in file.now)) (2 ^ 64 - 1) }
{
    let mut chart = Chart::empty();
    charting::of_file(file, &mut chart);
    let mut trees = [0; 1984];
    let places = 64 * (h.n as usize - 1);
    print_list(out, file, &chart, h, &mut trees[..places])
}

// The front in tables of 512 rows, and the last line.
fn print_front(out: &mut Printout, file: &[u8], h: Header, trees: u64)
    requires { Given file.now h }
{
    let k = h.k as usize;
    let width = h.n as usize - 1;
    let mut vectors = [0; 2048];
    let mut paths = [0; 15872];
    let costs = &mut vectors[..512 * k];
    let witnesses = &mut paths[..512 * width];
    let Ok(Rows { count, whole }) = front::front(file, costs, witnesses) else {
        return;
    };
    for (vector, rows) in costs
        .chunks_exact(k)
        .zip(witnesses.chunks_exact(width))
        .take(count)
    {
        out.front(vector, rows);
    }
    out.end(trees, count, whole);
}

// The printout of a network that has a tree.
fn print_network(out: &mut Printout, file: &[u8], h: Header)
    requires { Given file.now h }
{
    out.sizes(h);
    let trees = print_trees(out, file, h);
    // The front may take long: the list is written before it is begun.
    out.flush();
    print_front(out, file, h, trees);
}

// What Page answers with room for one tree: whether there is one.
fn first_tree(file: &[u8], n: u8) -> Result<Filled, Refusal>
    requires { (1 ≤ n) × (n ≤ 32) }
    ensures { paged_of result ≡ (page_call file.now (take (n - 1) (replicate 31 0)) []).outcome }
{
    let mut first = [0; 31];
    page::page(file, &mut first[..n as usize - 1], &[])
}

// The sizes of a file that is accepted and whose network has a tree.
fn with_tree(file: &[u8]) -> Result<Header, Refusal>
    ensures { IfOk result (Given file.now) }
{
    let header = network::open(file)?;
    first_tree(file, header.n)?;
    Ok(header)
}

// The whole printout of a file.
fn print_file(out: &mut Printout, file: &[u8]) {
    match with_tree(file) {
        Ok(header) => print_network(out, file, header),
        Err(refusal) => out.refused(refusal),
    }
    out.flush();
}

fn main() {
    let mut space = io::large_buffer();
    let got = io::read_full(STDIN_FILENO, &mut space);
    let mut out = Printout {
        buffer: io::large_buffer(),
        at: 0,
    };
    print_file(&mut out, printout::shown(&space, got));
}
