//! Document 01's trials that are not starred, some of the others, some of version 2 and of closed streets, worked by the library's functions for Rust and C.
//! A line says what was tried, and what the call gives; or by which check it is refused, and what the buffer keeps. The file stdout has what
//! must come out. The starred trials are theorems (crate examples).
#![tactic(auto)]

use planner_c::{
    planner_cost, planner_front, planner_open, planner_order, planner_page, planner_reach,
};

// The descriptor of the standard output.
const STDOUT_FILENO: i32 = 1;

// Writes the line, which ends at a place of the buffer, and a line feed to the standard output.
fn write(line: &mut [u8], at: usize) {
    let end = printout::ended(line, at);
    io::write_all(STDOUT_FILENO, printout::shown(line, end));
}

// What a call returned.
fn came(line: &mut [u8], at: usize, code: u32) -> usize {
    if code == 0 {
        return printout::text(line, at, b" gives");
    }
    let mut end = printout::text(line, at, b" refused");
    end = printout::number(line, end, code as u64);
    printout::text(line, end, b" keeps")
}

// Open, of a file that has so many of this: n, m and k.
fn open(what: &[u8], many: u64, file: &[u8]) {
    let mut answer = [99; 3];
    let code = planner_open(file, &mut answer);
    let mut line = [0; 512];
    let mut at = printout::text(&mut line, 0, what);
    at = printout::number(&mut line, at, many);
    at = came(&mut line, at, code);
    at = printout::numbers(&mut line, at, &answer);
    write(&mut line, at);
}

// The line of a call with the rows that it was given, and with its answer.
fn tell(what: &[u8], rows: &[u16], code: u32, answer: &[u32]) {
    let mut line = [0; 512];
    let mut at = printout::text(&mut line, 0, what);
    at = printout::numbers(&mut line, at, rows);
    at = came(&mut line, at, code);
    at = printout::numbers(&mut line, at, answer);
    write(&mut line, at);
}

// Reach: the word and the size.
fn reach(file: &[u8]) {
    let mut answer = [99; 2];
    let code = planner_reach(file, &mut answer);
    tell(b"reach", &[], code, &answer);
}

fn order(file: &[u8], rows: &[u16]) {
    let mut path = [99; 3];
    let code = planner_order(file, rows, &mut path);
    let mut line = [0; 512];
    let mut at = printout::text(&mut line, 0, b"order");
    at = printout::numbers(&mut line, at, rows);
    at = came(&mut line, at, code);
    at = printout::numbers(&mut line, at, &path);
    write(&mut line, at);
}

fn cost(file: &[u8], rows: &[u16]) {
    let mut vector = [99; 3];
    let code = planner_cost(file, rows, &mut vector);
    tell(b"cost", rows, code, &vector);
}

// Page after a path, which is empty at the start: the count, and 1 for 'more'.
fn page(file: &[u8], page: &mut [u16], start: &[u16]) {
    let mut answer = [99; 2];
    let code = planner_page(file, page, start, &mut answer);
    tell(b"page", start, code, &answer);
}

// Front: the count, and 1 for 'whole'.
fn front(file: &[u8], costs: &mut [u32], witnesses: &mut [u16]) {
    let mut answer = [99; 2];
    let code = planner_front(file, costs, witnesses, &mut answer);
    tell(b"front", &[], code, &answer);
}

// A file of n nodes and no rows.
fn open_nodes(n: u8) {
    open(b"open nodes", n as u64, &[1, 0, 0, 0, 5, n, 0, 0, 1, 0]);
}

// A file of one row, whose cost is 999,936 and this.
fn open_cost(low: u8) {
    let file = [1, 0, 0, 0, 13, 2, 0, 1, 1, 0, 1, 2, 0, 0, 0, 15, 66, low];
    open(b"open cost", 999936 + low as u64, &file);
}

// A byte of a file whose rows are all alike; `first` has it up to the first row.
fn byte_of(first: &[u8; 18], at: usize) -> u8 {
    if at < 10 {
        first[at]
    } else {
        first[10 + (at - 10) % 8]
    }
}

fn fill(file: &mut [u8], first: &[u8; 18]) {
    let mut at = 0;
    while at < file.len() {
        file[at] = byte_of(first, at);
        at += 1;
    }
}

// 256 rows, all the same, and 257.
fn open_rows() {
    let mut most = [0; 2058];
    fill(
        &mut most,
        &[1, 0, 0, 8, 5, 2, 1, 0, 1, 0, 1, 2, 0, 0, 0, 0, 0, 0],
    );
    open(b"open rows", 256, &most);
    let mut above = [0; 2066];
    fill(
        &mut above,
        &[1, 0, 0, 8, 13, 2, 1, 1, 1, 0, 1, 2, 0, 0, 0, 0, 0, 0],
    );
    open(b"open rows", 257, &above);
}

// A file of two nodes with no tree.
fn without_tree(file: &[u8]) {
    let mut places = [0; 1];
    page(file, &mut places, &[]);
    order(file, &[0]);
}

// Version 2, with one row of this state; 2 is barred, 3 is none.
fn state(state: u8) {
    let file = [2, 0, 0, 0, 14, 2, 0, 1, 1, 0, 1, 2, 0, 0, state, 0, 0, 0, 0];
    open(b"open state", state as u64, &file);
    without_tree(&file);
}

// Rows drawn on network A.
fn draw(file: &[u8]) {
    order(file, &[2, 0]);
    order(file, &[0, 1]);
    cost(file, &[2, 0]);
}

// A page of four trees of network A, and tree 1 of it.
fn pick(file: &[u8]) {
    let mut places = [0; 8];
    page(file, &mut places, &[]);
    let mut line = [0; 512];
    let at = printout::text(&mut line, 0, b"pick");
    let end = printout::numbers(&mut line, at, pick::pick(3, &places, 1));
    write(&mut line, end);
}

// The front of a network like A in tables of one row and of three, and what they hold.
fn fronts(file: &[u8]) {
    let mut vector = [0; 2];
    let mut tree = [0; 2];
    front(file, &mut vector, &mut tree);
    tell(b"front of tree", &tree, 0, &vector);
    let mut vectors = [0; 6];
    let mut trees = [0; 6];
    front(file, &mut vectors, &mut trees);
    tell(b"front of trees", &trees, 0, &vectors);
}

fn network_a() {
    let file = b"\x01\x00\x00\x00\x36\x03\x00\x04\x02\x00\x01\
        \x01\x02\x00\x00\x00\x00\x00\x04\x00\x00\x00\x07\
        \x01\x02\x00\x00\x00\x00\x00\x06\x00\x00\x00\x02\
        \x01\x03\x00\x00\x00\x00\x00\x05\x00\x00\x00\x05\
        \x02\x03\x00\x00\x00\x00\x00\x03\x00\x00\x00\x06";
    reach(file);
    draw(file);
    pick(file);
    fronts(file);
}

// Rows of 3 and 5 days in street 7, and in a second criterion of 6 and 2; one row in street 65,535, two off the road.
fn network_c() {
    let file = b"\x01\x00\x00\x00\x42\x03\x00\x05\x02\x02\x02\
        \x01\x02\x00\x07\x00\x00\x00\x03\x00\x00\x00\x06\
        \x02\x03\x00\x07\x00\x00\x00\x05\x00\x00\x00\x02\
        \x01\x03\x00\x00\x00\x00\x00\x04\x00\x00\x00\x01\
        \x02\x03\xff\xff\x00\x00\x00\x02\x00\x00\x00\x02\
        \x01\x02\x00\x00\x00\x00\x00\x04\x00\x00\x00\x04";
    cost(file, &[1, 0]);
    cost(file, &[0, 3]);
    cost(file, &[2, 4]);
    fronts(file);
}

// All pairs of n nodes: the whole list on a page, and on two, of which the first has its last tree at `last`.
fn pairs(file: &[u8], n: u8, first: &mut [u16], last: usize) {
    open(b"open pairs of nodes", n as u64, file);
    let mut places = [0; 500];
    page(file, &mut places, &[]);
    page(file, first, &[]);
    page(file, &mut places, pick::pick(n, first, last));
}

fn four_nodes() {
    let mut ten = [0; 30];
    pairs(
        b"\x01\x00\x00\x00\x35\x04\x00\x06\x01\x00\
        \x01\x02\x00\x00\x00\x00\x00\x00\
        \x01\x03\x00\x00\x00\x00\x00\x00\
        \x01\x04\x00\x00\x00\x00\x00\x00\
        \x02\x03\x00\x00\x00\x00\x00\x00\
        \x02\x04\x00\x00\x00\x00\x00\x00\
        \x03\x04\x00\x00\x00\x00\x00\x00",
        4,
        &mut ten,
        9,
    );
}

fn five_nodes() {
    let mut fifty = [0; 200];
    pairs(
        b"\x01\x00\x00\x00\x55\x05\x00\x0a\x01\x00\
        \x01\x02\x00\x00\x00\x00\x00\x00\
        \x01\x03\x00\x00\x00\x00\x00\x00\
        \x01\x04\x00\x00\x00\x00\x00\x00\
        \x01\x05\x00\x00\x00\x00\x00\x00\
        \x02\x03\x00\x00\x00\x00\x00\x00\
        \x02\x04\x00\x00\x00\x00\x00\x00\
        \x02\x05\x00\x00\x00\x00\x00\x00\
        \x03\x04\x00\x00\x00\x00\x00\x00\
        \x03\x05\x00\x00\x00\x00\x00\x00\
        \x04\x05\x00\x00\x00\x00\x00\x00",
        5,
        &mut fifty,
        49,
    );
}

fn main() {
    open_nodes(1);
    open_nodes(33);
    open_nodes(32);
    open_nodes(2);
    without_tree(&[1, 0, 0, 0, 5, 2, 0, 0, 1, 0]);
    open_cost(64);
    open_cost(65);
    open_rows();
    state(3);
    state(2);
    network_a();
    network_c();
    four_nodes();
    five_nodes();
}
