//! The walk in place, as it is written: the sets of the nodes entered, and a turn of the path, from which it is grown anew. trail's specs/Trail.antt says which path
//! the arrays hold, and what a turn makes of it.
#![tactic(auto)]

ghost use Rattle.std.specs.Prelude.{◌≡◌, List, ◌-◌, ◌≤◌, length, take};
ghost use Rattle.chart.specs.Chart.{plant_in, width_in};
ghost use Rattle.graph.proofs.Growth.{rows_of};
ghost use Rattle.graph.specs.Paths.{Key};
ghost use Rattle.trail.specs.Trail.{Holds, Names, grown_on, sets_by, turned_by};

use chart::Chart;
use trail::Turn;

/// For each place the set of the nodes entered up to it, of at most 32 nodes.
pub fn gather(entered: &[u8], sets: &mut [u64; 32])
    ensures { let nodes = entered.now in
        length nodes ≤ 32 → length sets.old ≡ 32 → (take (length nodes) sets.new ≡ sets_by nodes) × (length sets.new ≡ 32) }
{
    let mut set: u64 = 0;
    for i in 0..entered.len().min(32) {
        set |= words::bit(entered[i]);
        sets[i] = set;
    }
}

// Accepted steps from a turn's step and bound on, until the rows are full.
fn regrow(
    chart: &Chart,
    entered: &mut [u8],
    pivots: &mut [u8; 31],
    sets: &mut [u64; 32],
    rows: &mut [u16],
    turn: Turn,
)
    ensures { (keys : List Key) → let c = chart.now.words in let rows₀ = rows.old in
        let whole = grown_on c (plant_in c) (length rows₀ - turn.at) keys turn.place turn.node in
        Holds entered.old pivots.old sets.old (plant_in c) keys
        → length keys ≡ turn.at → take turn.at rows₀ ≡ rows_of keys → length whole ≡ length rows₀
        → Holds entered.new pivots.new sets.new (plant_in c) whole × (rows.new ≡ rows_of whole) }
{
    let nodes = chart.nodes();
    let mut place = turn.place as usize;
    let mut node = turn.node;
    for s in turn.at..rows.len().min(31) {
        let n = s + 1;
        if entered.len() <= n {
            return;
        }
        let set = sets[s];
        let fresh = words::minus(nodes, set);
        let Some(step) = grow::accepted(chart, fresh, &entered[..n], place, node) else {
            return;
        };
        place = step.place;
        node = step.node;
        rows[s] = (step.row % 65536) as u16;
        pivots[s] = (place % 256) as u8;
        entered[n] = node;
        sets[n] = set | words::bit(node);
    }
}

/// Makes a turn: the first rows are those of the path before, the others are written, and so is the path in the arrays.
pub fn take_turn(
    chart: &Chart,
    entered: &mut [u8],
    pivots: &mut [u8; 31],
    sets: &mut [u64; 32],
    rows: &mut [u16],
    turn: Turn,
)
    ensures { (keys : List Key) → let c = chart.now.words in let rows₀ = rows.old in
        let whole = turned_by c (plant_in c) keys turn.at turn.row in
        Holds entered.old pivots.old sets.old (plant_in c) keys → Names keys turn
        → take turn.at rows₀ ≡ take turn.at (rows_of keys) → length rows₀ ≡ width_in c → length whole ≡ width_in c
        → Holds entered.new pivots.new sets.new (plant_in c) whole × (rows.new ≡ rows_of whole) }
{
    if turn.row == 0 {
        regrow(chart, entered, pivots, sets, rows, turn);
        return;
    }
    let at = turn.at;
    if rows.len() <= at {
        return;
    }
    // a parallel row: the same node from the same pivot
    rows[at] = turn.row;
    let next = Turn {
        at: at + 1,
        row: 0,
        ..turn
    };
    regrow(chart, entered, pivots, sets, rows, next);
}
