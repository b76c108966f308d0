//! What rows cost by tables. A row of no street is the first of its own. Sums are of at most 31 rows and fit 64 bits.
//! Each function is equal to its model in specs/Tally.antt, on every input.
#![tactic(auto)]

ghost use Rattle.std.specs.Prelude.{◌≡◌, ◌≤◌, get_or, ltb};
ghost use Rattle.lists.specs.Lists.{pick};
ghost use Rattle.chosen.specs.Chosen.{rows_of};
ghost use Rattle.tally.specs.Kinds.{number_of, numbers_of};
ghost use Rattle.tally.specs.Tally.{added_in, closing_in, component_in, cost_in, days_in, kind_cost, lead_in, vector_in, worst_in};
ghost use Rattle.completions.specs.Boxes.{inside as inside_of};

use chosen::Chosen;
use fields::Kind;

/// By what trees are measured: the kinds of k criteria, the cost of row r in criterion c at place c * 256 + r, and of each row the first row of its street.
#[derive(Clone, Copy, Debug, PartialEq, Eq)]
pub struct Criteria<'a> {
    pub kinds: [Kind; 4],
    pub k: u8,
    pub costs: &'a [u32],
    pub leads: &'a [u8],
}

/// Days by street, each at the place of its first row, and their sum.
#[derive(Clone, Copy)]
pub struct Paid {
    pub sum: u64,
    pub days: [u32; 256],
}

impl Criteria<'_> {
    /// How many criteria there are: at most four.
    pub fn count(self) -> u8
        ensures { (result ≡ pick (ltb self.entry.k 4) self.entry.k 4) × (result ≤ 4) }
    {
        self.k.min(4)
    }

    /// The cost of a row in a criterion.
    pub fn cost_at(self, c: u8, row: u8) -> u32
        ensures { result ≡ cost_in self.entry.costs.now c row }
    {
        slices::at(self.costs, c as usize * 256 + row as usize, 0)
    }

    /// The first row of a row's street.
    pub fn lead_of(self, row: u8) -> u8
        ensures { result ≡ lead_in self.entry.leads.now row }
    {
        slices::at(self.leads, row as usize, 0)
    }

    /// What the rows pay for closing streets, street by street and in all.
    pub fn paid_of(self, c: u8, rows: Chosen) -> Paid
        ensures sum { result.sum ≡ closing_in self.entry.costs.now self.entry.leads.now c (rows_of rows) }
        ensures days { result.days ≡ days_in self.entry.costs.now self.entry.leads.now c (rows_of rows) }
    {
        let mut sum = 0u64;
        let mut days = [0u32; 256];
        for &row in rows.rows().iter().rev() {
            let lead = self.lead_of(row) as usize;
            let cost = self.cost_at(c, row);
            let paid = days[lead];
            sum += cost.saturating_sub(paid) as u64;
            days[lead] = paid.max(cost);
        }
        Paid { sum, days }
    }

    /// The sum over the rows.
    pub fn added(self, c: u8, rows: Chosen) -> u64
        ensures { result ≡ added_in self.entry.costs.now c (rows_of rows) }
    {
        rows.rows()
            .iter()
            .map(|&row| self.cost_at(c, row) as u64)
            .sum()
    }

    /// The largest cost among the rows.
    pub fn worst(self, c: u8, rows: Chosen) -> u32
        ensures { result ≡ worst_in self.entry.costs.now c (rows_of rows) }
    {
        rows.rows()
            .iter()
            .fold(0, |most, &row| most.max(self.cost_at(c, row)))
    }

    /// The kind of a criterion; past the four a sum.
    pub fn kind_at(self, c: u8) -> Kind
        ensures { number_of result ≡ get_or (numbers_of self.entry.kinds) c 0 }
    {
        slices::at(&self.kinds, c as usize, Kind::Added)
    }

    /// The cost of rows in a criterion, by its kind.
    pub fn cost_of(self, c: u8, rows: Chosen) -> u64
        ensures { result ≡ kind_cost (get_or (numbers_of self.entry.kinds) c 0) self.entry.costs.now self.entry.leads.now c (rows_of rows) }
    {
        match self.kind_at(c) {
            Kind::Added => self.added(c, rows),
            Kind::Worst => self.worst(c, rows) as u64,
            Kind::Closing => self.paid_of(c, rows).sum,
        }
    }

    // The cost in a criterion; 0 where there is no such criterion.
    fn component(self, c: u8, rows: Chosen) -> u64
        ensures { result ≡ component_in (numbers_of self.entry.kinds) self.entry.k self.entry.costs.now self.entry.leads.now (rows_of rows) c }
    {
        if c < self.k { self.cost_of(c, rows) } else { 0 }
    }

    /// The cost vector of rows; the places past the last criterion are 0.
    pub fn vector(self, rows: Chosen) -> [u64; 4]
        ensures { result ≡ vector_in (numbers_of self.entry.kinds) self.entry.k self.entry.costs.now self.entry.leads.now (rows_of rows) }
    {
        [
            self.component(0, rows),
            self.component(1, rows),
            self.component(2, rows),
            self.component(3, rows),
        ]
    }
}

/// Whether each component is below its limit.
pub fn inside(limits: [u64; 4], v: [u64; 4]) -> bool
    ensures { result ≡ inside_of limits v }
{
    // by place: over a zip of the two the proof didn't close
    (0..4).all(|c| v[c] < limits[c])
}
