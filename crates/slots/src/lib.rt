// The slot question.
#![tactic(auto)]

ghost use Rattle.slots.specs.Told.{slot_answered};
ghost use Rattle.slots.specs.Slots.{SlotQuestion};

use answers::Refusal;
use racks::Job;

pub mod parts;

// Whether a slot is a user slot or a spare.
#[derive(Clone, Copy)]
pub enum Kind {
    User,
    Spare,
}

// What stands in a slot: a card that is away comes with its destination's rack.
#[derive(Clone, Copy)]
pub enum State {
    Free,
    Settled,
    Unsettled,
    Away(usize),
}

#[derive(Clone, Copy)]
pub struct Slot {
    pub kind: Kind,
    pub state: State,
}

// Slot question: what slot g is, and what stands in it; 1, 3 to 6, or 7.
pub fn slot_question(caps: &[u16], places: &[u16], g: usize) -> Result<Slot, Refusal>
    ensures { SlotQuestion caps.now places.now g (slot_answered result) }
{
    let job = Job::of(caps)?;
    parts::ask_job(&job, places, g)
}
