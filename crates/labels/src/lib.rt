//! The greedy choice over labels: nodes that rows join have the same label, and a row that is chosen gives one label to both parts.
//! Each function is equal to its model in completions' specs/Labels.antt, on every input.
#![tactic(auto)]

ghost use Rattle.std.specs.Prelude.{◌≡◌, eqb, get_or, map, take};
ghost use Rattle.lists.specs.Lists.{filter_b, pick, range};
ghost use Rattle.chosen.specs.Chosen.{is_on, rows_of};
ghost use Rattle.completions.specs.Labels.{choose_few, label_at, labels_of, relabel};

use chosen::Chosen;
use std::array;

/// The first and the second ends of rows, by row number; a row that stands in none has ends 0.
#[derive(Clone, Copy, Debug, PartialEq, Eq)]
pub struct Ends<'a> {
    pub firsts: &'a [u8],
    pub seconds: &'a [u8],
}

// Each node by itself: node v has label v.
fn own() -> [u8; 33]
    ensures { result ≡ range 0 33 }
{
    array::from_fn(|v| v as u8)
}

// Label a becomes b.
fn relabel(labels: &mut [u8; 33], a: u8, b: u8)
    ensures { labels.new ≡ relabel a b labels.old }
{
    for label in labels.iter_mut() {
        *label = if *label == a { b } else { *label };
    }
}

impl Ends<'_> {
    // The labels of the ends of a row.
    fn labels_at(self, labels: &[u8; 33], row: u8) -> (u8, u8)
        ensures first { result.0 ≡ label_at labels.now (get_or self.entry.firsts.now row 0) }
        ensures second { result.1 ≡ label_at labels.now (get_or self.entry.seconds.now row 0) }
    {
        let at = row as usize;
        let first = slices::at(self.firsts, at, 0) as usize;
        let second = slices::at(self.seconds, at, 0) as usize;
        (slices::at(labels, first, 0), slices::at(labels, second, 0))
    }

    /// The labels once these rows have joined their ends, the last of them first.
    pub fn labels_of(self, rows: Chosen) -> [u8; 33]
        ensures { result ≡ labels_of self.entry.firsts.now self.entry.seconds.now (range 0 33) (rows_of rows) }
    {
        let mut labels = own();
        for &row in rows.rows().iter().rev() {
            let (a, b) = self.labels_at(&labels, row);
            relabel(&mut labels, a, b);
        }
        labels
    }

    /// Of the rows of a sequence whose flags are set, each whose ends have different labels, until there are as many as are needed.
    pub fn choose(self, order: &[u8], flags: &[u8], need: usize, start: [u8; 33]) -> Chosen
        ensures { rows_of result ≡ take 31 (choose_few self.entry.firsts.now self.entry.seconds.now need start (filter_b (is_on flags.now) order.now)) }
    {
        let mut labels = start;
        let mut chosen = Chosen::empty();
        let mut left = need;
        for &row in order {
            if left == 0 {
                break;
            }
            if slices::at(flags, row as usize, 0) == 0 {
                continue;
            }
            let (a, b) = self.labels_at(&labels, row);
            if a != b {
                relabel(&mut labels, a, b);
                chosen = chosen.extended(row);
                left -= 1;
            }
        }
        chosen
    }
}
