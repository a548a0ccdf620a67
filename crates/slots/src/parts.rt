// What the slot question puts together.
ghost use Rattle.std.specs.Prelude.{◌≡◌, ◌<◌, length};
ghost use Rattle.racks.specs.Racks.{is_user};
ghost use Rattle.racks.specs.Job.{racks_of, Sound};
ghost use Rattle.slots.specs.Told.{kind_told, state_told, slot_answered};
ghost use Rattle.slots.specs.Slots.{kind_of, state_of};
ghost use Rattle.slots.specs.parts.Asked.{asked_by};

use crate::{Kind, Slot, State};
use answers::Refusal;
use racks::Job;

// Whether g is a user slot.
pub fn is_user(job: Job, g: usize) -> bool
    requires { Sound job }
    ensures { result ≡ is_user (racks_of job) g }
{
    if job.slots <= g {
        return false;
    }
    let p = tables::parts::rack_of(job, g);
    let spare = job.spares[p] as usize;
    g < spare
}

// User slot or spare.
pub fn kind_of(job: Job, g: usize) -> Kind
    requires { Sound job }
    ensures { kind_told result ≡ kind_of (racks_of job) g }
{
    if is_user(job, g) {
        return Kind::User;
    }
    Kind::Spare
}

// What stands in slot g of a table. Two racks at most are asked for: counting to them costs less than a racking.
pub fn state_of(job: Job, places: &[u16], g: usize) -> State
    requires { Sound job × (g < length places.now) }
    ensures { state_told result ≡ state_of (racks_of job) places.now g }
{
    let x = places[g];
    if x == Job::FREE {
        return State::Free;
    }
    let to = x as usize;
    if to == g {
        return State::Settled;
    }
    let there = tables::parts::rack_of(job, to);
    if tables::parts::rack_of(job, g) == there {
        return State::Unsettled;
    }
    State::Away(there)
}

// The slot question, by the job.
pub fn ask_job(job: &Job, places: &[u16], g: usize) -> Result<Slot, Refusal>
    requires { Sound job.now }
    ensures { slot_answered result ≡ asked_by job.now places.now g }
{
    tables::parts::check_places(*job, places)?;
    if places.len() <= g {
        return Err(Refusal::NoSlot);
    }
    let kind = kind_of(*job, g);
    let state = state_of(*job, places, g);
    Ok(Slot { kind, state })
}
