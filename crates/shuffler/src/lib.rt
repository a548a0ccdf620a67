// The shuffle.
#![tactic(auto)]

ghost use Rattle.answers.specs.Answers.{answered};
ghost use Rattle.shuffle.specs.Shuffle.{ShuffleCards};
ghost use Rattle.moves.specs.Moves.{held, outcome_of};

use answers::{Refusal, Tally};
use racks::Job;

pub mod parts;

// Shuffle: every card to its slot by the copy list, and every free slot zeroed.
pub fn shuffle_cards(
    caps: &[u16],
    b: usize,
    places: &mut [u16],
    cards: &mut [u8],
) -> Result<Tally, Refusal>
    ensures { ShuffleCards caps.now b (held places.old cards.old) (outcome_of (answered result) places.new cards.new) }
{
    let job = Job::of_cards(caps, b)?;
    parts::shuffle_job(&job, b, places, cards)
}
