// Moves: one move.
#![tactic(auto)]

ghost use Rattle.answers.specs.Answers.{answered};
ghost use Rattle.moves.specs.Moves.{held, outcome_of, OneMove};

use answers::{Refusal, Tally};

pub mod parts;

// One move: the card in slot `from` to slot `to`, which must be free and on the card's destination rack.
pub fn one_move(
    caps: &[u16],
    b: usize,
    places: &mut [u16],
    cards: &mut [u8],
    from: usize,
    to: usize,
) -> Result<Tally, Refusal>
    ensures { OneMove caps.now b (held places.old cards.old) (from, to) (outcome_of (answered result) places.new cards.new) }
{
    // The job is looked at where it was made: a copy of it on the stack would be past this call's figure.
    match &parts::job_for(caps, b) {
        Ok(job) => parts::move_job(job, b, places, cards, from, to),
        Err(refusal) => Err(*refusal),
    }
}
