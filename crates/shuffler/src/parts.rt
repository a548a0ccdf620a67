// What the shuffle puts together: the factors brought, the new table, free slots zeroed.
ghost use Rattle.std.specs.Prelude.{◌≡◌, ◌*◌, ◌≤◌, ◌<◌, length};
ghost use Rattle.answers.specs.Answers.{no_counts, answered};
ghost use Rattle.racks.specs.Limits.{BYTES, SLOTS, SOURCES};
ghost use Rattle.racks.specs.Job.{Sound};
ghost use Rattle.moves.specs.Moves.{held, outcome_of};
ghost use Rattle.factors.specs.parts.Chains.{Chained};
ghost use Rattle.factors.specs.parts.Walks.{COUNTED, NoSources, Sources, Unmarked};
ghost use Rattle.shuffle.specs.parts.Shuffled.{AllSettled, Shuffled};
ghost use Rattle.shuffler.specs.parts.Settled.{entry_by, SlotSettled, TableSettled, AllBelow, Zeroed};
ghost use Rattle.shuffler.specs.parts.Shuffled.{shuffled_by};

use answers::{Refusal, Tally};
use racks::Job;

// Slot d's entry at the end: it names itself where a card was bound for it, else it is free.
pub fn entry_by(source: u16, d: usize) -> u16
    requires { d < SLOTS }
    ensures { result ≡ entry_by source d }
{
    if source == Job::FREE {
        return Job::FREE;
    }
    d as u16
}

// Slot d at the end: its entry, and its number behind the n free slots before it, where it is kept if it is free. So there is no branch, which
// could not be foretold where free and taken slots alternate at random.
pub fn settle_slot(places: &mut [u16], frees: &mut [u16], d: usize, n: usize, source: u16) -> usize
    requires { (d < length places.old) × (d < SLOTS) × (n ≤ d) × (SOURCES ≤ length frees.old) }
    ensures { SlotSettled source d n places.old frees.old result places.new frees.new }
{
    places[d] = entry_by(source, d);
    frees[n] = d as u16;
    n + (source == Job::FREE) as usize
}

// The new table, and the slots that are free in it from the front of the sources; how many they are. No more slots are listed than sources were
// read, so that each source is read before its place is written.
pub fn settle_table(sources: &mut [u16], places: &mut [u16]) -> usize
    requires { Chained places.old × Sources places.old sources.old }
    ensures { TableSettled places.old places.new sources.new result }
{
    let mut n: usize = 0;
    for d in 0..places.len() {
        let source = sources[d];
        n = settle_slot(places, sources, d, n, source);
    }
    n
}

// The slots that are listed, zeroed.
pub fn zero_slots(frees: &[u16], n: usize, cards: &mut [u8], b: usize, slots: usize)
    requires { AllBelow slots n frees.now × (n ≤ length frees.now) × (length cards.old ≡ slots * b) }
    ensures { Zeroed b frees.now n cards.old cards.new }
{
    for i in 0..n {
        carrying::parts::blank_card(cards, b, frees[i] as usize);
    }
}

// The new table, and every free slot zeroed.
pub fn settle_slots(sources: &mut [u16], places: &mut [u16], cards: &mut [u8], b: usize)
    requires { Chained places.old × Sources places.old sources.old × (length cards.old ≡ length places.old * b) }
    ensures { AllSettled b places.old cards.old places.new cards.new }
{
    let n = settle_table(sources, places);
    zero_slots(sources, n, cards, b, places.len());
}

// The shuffle of an accepted table with nothing away, with marks and a list for the sources lent; the tally with the copies made.
pub fn settle(
    b: usize,
    places: &mut [u16],
    cards: &mut [u8],
    seen: &mut [u8; Job::MAX_SLOTS],
    sources: &mut [u16],
    tally: Tally,
) -> Tally
    requires { Chained places.old × Unmarked places.old COUNTED seen.old × NoSources (length places.old) sources.old × (b ≤ BYTES) × (length cards.old ≡ length places.old * b) × (tally.copies ≡ 0) }
    ensures { Shuffled b places.old cards.old tally result places.new cards.new }
{
    factors::parts::walks::fill_sources(places, sources);
    let mut hand = [0u8; Job::MAX_BYTES];
    let counted = hands::parts::bring_factors(places, sources, seen, cards, &mut hand, b, tally);
    settle_slots(sources, places, cards, b);
    counted
}

// The same with sources of its own. They are made here, when the check's marks are gone: so the two can have one place on the stack.
fn settle_alone(
    b: usize,
    places: &mut [u16],
    cards: &mut [u8],
    seen: &mut [u8; Job::MAX_SLOTS],
) -> Tally
    requires { Chained places.old × Unmarked places.old COUNTED seen.old × (b ≤ BYTES) × (length cards.old ≡ length places.old * b) }
    ensures { Shuffled b places.old cards.old no_counts result places.new cards.new }
{
    let mut sources = [Job::FREE; Job::SOURCES];
    let none = Tally::none();
    settle(b, places, cards, seen, &mut sources, none)
}

// The shuffle, by the job. Once nothing is away, the racking serves as marks.
pub fn shuffle_job(
    job: &Job,
    b: usize,
    places: &mut [u16],
    cards: &mut [u8],
) -> Result<Tally, Refusal>
    requires { Sound job.now }
    ensures { outcome_of (answered result) places.new cards.new ≡ shuffled_by job.now b (held places.old cards.old) }
{
    let mut racking = [0u8; Job::MAX_SLOTS];
    tables::parts::check_cards(*job, b, places, cards, &mut racking)?;
    if copies::parts::some_away(&racking, places) {
        return Err(Refusal::SomeAway);
    }
    Ok(settle_alone(b, places, cards, &mut racking))
}
