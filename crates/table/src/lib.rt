//! A front table over two lent arrays in step: a vector is entered with its tree in the filled rows.
#![tactic(auto)]

ghost use Rattle.std.specs.Prelude.{◌≡◌, ◌*◌, ◌≤◌, length};
ghost use Rattle.table.specs.Answers.{entering_of};
ghost use Rattle.table.specs.Enter.{enter_call, filled};
ghost use Rattle.table.specs.Parts.{Closed, place_in, staying};

/// What entering came to: the tables have fewer rows than said; a row equals or dominates the vector; there is no room; the new count.
#[derive(Clone, Copy, Debug, PartialEq, Eq)]
pub enum Entered {
    Unfit,
    Met,
    Full,
    Rows(usize),
}

// How many of the first rows stand before the first that is not less than the vector.
fn place_of(costs: &[u32], count: usize, vector: &[u32]) -> usize
    requires { count * length vector.now ≤ length costs.now }
    ensures { result ≡ place_in costs.now count vector.now }
{
    let k = vector.len();
    for i in 0..count {
        let from = i * k;
        if !compare::less(&costs[from..from + k], vector) {
            return i;
        }
    }
    count
}

// Closes up the rows that the vector does not dominate, and counts them.
fn close_up(
    costs: &mut [u32],
    witnesses: &mut [u16],
    count: usize,
    vector: &[u32],
    w: usize,
) -> usize
    requires { (count * length vector.now ≤ length costs.old) × (count * w ≤ length witnesses.old) }
    ensures { Closed (staying vector.now (filled (length vector.now) w count costs.old witnesses.old))
        costs.old witnesses.old result costs.new witnesses.new }
{
    let k = vector.len();
    let mut kept = 0;
    for i in 0..count {
        let from = i * k;
        if !compare::dominates(vector, &costs[from..from + k]) {
            copies::shift(costs, from, kept * k, k);
            copies::shift(witnesses, i * w, kept * w, w);
            kept += 1;
        }
    }
    kept
}

/// Enters a vector with its tree in the first `count` rows of both tables, whose rows are as wide as the vector and the tree.
pub fn enter(
    costs: &mut [u32],
    witnesses: &mut [u16],
    count: usize,
    vector: &[u32],
    path: &[u16],
) -> Entered
    ensures { record { answer = entering_of result; costs = costs.new; witnesses = witnesses.new }
        ≡ enter_call costs.old witnesses.old count vector.now path.now }
{
    let k = vector.len();
    let w = path.len();
    if k == 0 {
        return Entered::Unfit;
    }
    if w == 0 {
        return Entered::Unfit;
    }
    let room = (costs.len() / k).min(witnesses.len() / w);
    if room < count {
        return Entered::Unfit;
    }
    if compare::meets(costs, count, vector) {
        return Entered::Met;
    }
    let kept = close_up(costs, witnesses, count, vector, w);
    if room <= kept {
        return Entered::Full;
    }
    let place = place_of(costs, kept, vector);
    copies::insert(costs, place * k, kept * k, vector);
    copies::insert(witnesses, place * w, kept * w, path);
    Entered::Rows(kept + 1)
}
