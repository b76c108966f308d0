//! Reach: the nodes that rows which are not barred join to the plant, as a word, and how many they are.
#![tactic(auto)]

ghost use Rattle.std.specs.Prelude.{◌≡◌};
ghost use Rattle.operations.specs.Operations.{reach_call};
ghost use Rattle.reach.specs.Answers.{reached_of};
ghost use Rattle.reach.specs.Reached.{reached_word};

use chart::Chart;
use refusals::Refusal;

/// The answer of Reach: bit p - 1 of the word stands for node p, and so many bits are set.
#[derive(Clone, Copy, Debug, PartialEq, Eq)]
pub struct Reached {
    pub word: u32,
    pub size: u32,
}

// The nodes that rows join to the plant, and the plant, as a word of crate words.
#[tactic(auto, unfolding(crate::specs::Reached::reached_word))]
fn reached_word(chart: &Chart) -> u64
    ensures { result ≡ reached_word chart.now.words }
{
    let plant = chart.plant();
    let entered = [plant];
    let fresh = words::minus(chart.nodes(), words::bit(plant));
    let seeds = spread::seeds(chart, false, fresh, &entered, 0, 0);
    spread::spread(chart, false, fresh, seeds) | words::bit(plant)
}

/// Reach.
pub fn reach(file: &[u8]) -> Result<Reached, Refusal>
    ensures { reached_of result ≡ reach_call file.now }
{
    network::open(file)?;
    let mut chart = Chart::empty();
    charting::of_file(file, &mut chart);
    let reached = reached_word(&chart);
    let word = (reached / 2 % 4294967296) as u32;
    Ok(Reached {
        word,
        size: word.count_ones(),
    })
}
