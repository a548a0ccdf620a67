// What the copy list puts together, and the shuffle after it: the cards that are away, the list in a lent one.
ghost use Rattle.std.specs.Prelude.{◌≡◌, ◌*◌, ◌≤◌, ◌<◌, length};
ghost use Rattle.answers.specs.Answers.{plus_copies, answered, listed_of};
ghost use Rattle.factors.specs.parts.Chains.{Chained};
ghost use Rattle.factors.specs.parts.Walks.{COUNTED, LISTED, SomeMarked, Unmarked};
ghost use Rattle.racks.specs.Job.{Sound};
ghost use Rattle.tables.specs.parts.Tables.{away_by};
ghost use Rattle.factors.specs.Copies.{copy_list};
ghost use Rattle.copies.specs.parts.Writes.{some_away_by, put_copies, listed_here, copied_by};

use answers::{Refusal, Tally};
use factors::parts::walks;
use racks::Job;

pub mod chains;
pub mod lists;

// Whether the card in slot g is away, by the racking. A free slot is on its own rack: so there is no branch, which could
// not be foretold where free and taken slots alternate at random.
pub fn is_away(racking: &[u8; Job::MAX_SLOTS], places: &[u16], g: usize) -> bool
    requires { Chained places.now × (g < length places.now) }
    ensures { result ≡ away_by racking.now places.now g }
{
    let to = tables::parts::named_slot(places[g], g);
    racking[g] != racking[to]
}

// Whether some card is away.
pub fn some_away(racking: &[u8; Job::MAX_SLOTS], places: &[u16]) -> bool
    requires { Chained places.now }
    ensures { result ≡ some_away_by racking.now places.now }
{
    let mut found = false;
    for g in 0..places.len() {
        found |= is_away(racking, places, g);
    }
    found
}

// The copy list, from the front of a lent list that has room for it; the tally with its copies. Marks of other kinds stay.
pub fn list_copies(
    places: &[u16],
    seen: &mut [u8; Job::MAX_SLOTS],
    list: &mut [u16],
    tally: Tally,
) -> Tally
    requires { Chained places.now × Unmarked places.now LISTED seen.old × (2 * length (copy_list places.now) ≤ length list.old) × (tally.copies ≡ 0) }
    ensures counts { result ≡ plus_copies (length (copy_list places.now)) tally }
    ensures copies { list.new ≡ put_copies list.old 0 (copy_list places.now) }
    ensures marks { SomeMarked LISTED seen.old seen.new }
{
    let mut sources = [Job::FREE; Job::SOURCES];
    walks::fill_sources(places, &mut sources);
    lists::write_factors(places, &sources, seen, list, tally)
}

// The copies of an accepted table with nothing away: where the lent list has room for them, they are listed in it.
pub fn list_counted(
    places: &[u16],
    seen: &mut [u8; Job::MAX_SLOTS],
    lent: &mut [u16],
) -> Result<Tally, Refusal>
    requires { Chained places.now × Unmarked places.now COUNTED seen.old × Unmarked places.now LISTED seen.old }
    ensures { listed_of (answered result) lent.new ≡ listed_here places.now lent.old }
{
    let mut sources = [Job::FREE; Job::SOURCES];
    walks::fill_sources(places, &mut sources);
    if !lists::has_room(places, &sources, seen, lent.len()) {
        return Err(Refusal::TooShort);
    }
    let none = Tally::none();
    Ok(lists::write_factors(places, &sources, seen, lent, none))
}

// The copy list, by the job. Once nothing is away, the racking serves as marks.
pub fn copy_job(job: &Job, places: &[u16], lent: &mut [u16]) -> Result<Tally, Refusal>
    requires { Sound job.now }
    ensures { listed_of (answered result) lent.new ≡ copied_by job.now places.now lent.old }
{
    let mut racking = [0u8; Job::MAX_SLOTS];
    tables::parts::check_racked(*job, places, &mut racking)?;
    if some_away(&racking, places) {
        return Err(Refusal::SomeAway);
    }
    list_counted(places, &mut racking, lent)
}
