//! A chart: what the walk works on, in one array of words that is made once a call. specs/Chart.antt says where what stands, and of which graph it is.
#![tactic(auto)]

ghost use Rattle.std.specs.Prelude.{◌≡◌, true, [], ◌≤◌, min, get_or, replicate};
ghost use Rattle.costs.specs.Network.{no_row};
ghost use Rattle.fields.specs.Fields.{row_with, state_in};
ghost use Rattle.states.specs.States.{must_row};
ghost use Rattle.chart.specs.Chart.{count_in, firsts_in, head_in, limit_in, near_in, next_in, nodes_in, plant_in, rows_in, seconds_in, state_by, width_in, words_in};

use fields::{Row, State};

/// The words of a chart.
pub const LENGTH: usize = 1416;

/// A chart, by its words.
#[derive(Clone, Copy)]
pub struct Chart {
    pub words: [u64; LENGTH],
}

impl Chart {
    /// A chart with nothing entered.
    pub fn empty() -> Chart
        ensures { result.words ≡ replicate 1416 0 }
    {
        Chart { words: [0; LENGTH] }
    }

    /// The greatest node; at most 32.
    pub fn limit(&self) -> u8
        ensures { (result ≡ limit_in self.now.words) × (result ≤ 32) }
    {
        self.words[0].min(32) as u8
    }

    /// The plant.
    pub fn plant(&self) -> u8
        ensures { result ≡ plant_in self.now.words }
    {
        (self.words[1] % 256) as u8
    }

    /// The set of the nodes.
    pub fn nodes(&self) -> u64
        ensures { result ≡ nodes_in self.now.words }
    {
        self.words[2]
    }

    /// How many rows a tree has.
    pub fn width(&self) -> usize
        ensures { result ≡ width_in self.now.words }
    {
        self.words[3] as usize
    }

    /// How many rows there are; at most 256.
    pub fn row_count(&self) -> usize
        ensures { (result ≡ count_in self.now.words) × (result ≤ 256) }
    {
        placed(self.words[4] as usize)
    }

    /// The nodes that a row joins to u, or that a must row does.
    pub fn near(&self, must: bool, u: u8) -> u64
        ensures { result ≡ get_or (near_in must self.now.words) u 0 }
    {
        let at = u as usize;
        // two reads: one at a place that depends on `must` misses the speed of this form in the loop of spread
        if must {
            self.words[38 + at]
        } else {
            self.words[5 + at]
        }
    }

    /// A row below which none joins u and v.
    pub fn first_row(&self, u: u8, v: u8) -> usize
        ensures { result ≡ head_in self.now.words u v }
    {
        if 32 < u || 32 < v {
            return 0;
        }
        self.words[71 + u as usize * 33 + v as usize] as usize
    }

    // The word of a row; 0 where there is no such row.
    fn word_at(&self, r: usize) -> u64
        ensures { result ≡ get_or (words_in self.now.words) r 0 }
    {
        if r < self.row_count() {
            self.words[1160 + r]
        } else {
            0
        }
    }

    /// The two ends of a row; of a must row, and 0 for every other.
    pub fn ends(&self, must: bool, r: usize) -> (u8, u8)
        ensures { (result.0 ≡ get_or (firsts_in must self.now.words) r 0) × (result.1 ≡ get_or (seconds_in must self.now.words) r 0) }
    {
        let w = self.word_at(r);
        if must && w / 281474976710656 != 1 {
            return (0, 0);
        }
        ((w % 256) as u8, (w / 256 % 256) as u8)
    }

    /// The first end of a row; of a must row, and 0 for every other.
    pub fn first_end(&self, must: bool, r: usize) -> u8
        ensures { result ≡ get_or (firsts_in must self.now.words) r 0 }
    {
        self.ends(must, r).0
    }

    /// The second end of a row; of a must row, and 0 for every other.
    pub fn second_end(&self, must: bool, r: usize) -> u8
        ensures { result ≡ get_or (seconds_in must self.now.words) r 0 }
    {
        self.ends(must, r).1
    }

    /// The next row above r that joins the same two nodes; 0 where there is none.
    pub fn next_row(&self, r: usize) -> u16
        ensures { result ≡ next_in self.now.words r }
    {
        (self.word_at(r) / 65536 % 65536) as u16
    }

    /// Whether a row is a must row.
    pub fn is_must(&self, r: usize) -> bool
        ensures { result ≡ must_row (firsts_in true self.now.words) r }
    {
        self.first_end(true, r) != 0
    }

    /// A row, barred or not, without its street; where there is no such row its ends are 0 and it is open.
    pub fn row_at(&self, r: usize) -> Row
        ensures { row_with result [] ≡ get_or (rows_in self.now.words) r no_row }
    {
        let w = self.word_at(r);
        Row {
            first: (w / 4294967296 % 256) as u8,
            second: (w / 1099511627776 % 256) as u8,
            street: 0,
            state: state_by(w / 281474976710656),
        }
    }
}

/// How many of m rows have a place in a chart; at most 256.
pub fn placed(m: usize) -> usize
    ensures { (result ≡ min m 256) × (result ≤ 256) }
{
    m.min(256)
}

/// The state that a number in a row's word stands for, as a state byte of a file does.
pub fn state_by(number: u64) -> State
    ensures { state_in result ≡ state_by number }
{
    match number {
        1 => State::Must,
        2 => State::Barred,
        _ => State::Open,
    }
}
