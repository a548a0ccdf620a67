// What the layers above share: one slot's rack, each slot's rack in a list of bytes, and the refusal of a lent table.
ghost use Rattle.std.specs.Prelude.{◌≡◌, length};
ghost use Rattle.answers.specs.Answers.{refused};
ghost use Rattle.racks.specs.Limits.{SLOTS, MARKS};
ghost use Rattle.racks.specs.Racks.{rack_of};
ghost use Rattle.racks.specs.Job.{racks_of, Sound};
ghost use Rattle.tables.specs.parts.Tables.{named_slot, Racked, Judged, Checked, CardsChecked};

use answers::Refusal;
use racks::Job;

// The slot that an entry names; a free slot's own. Two returns that become one choice, not a branch: in a table where free and taken slots
// alternate at random none could be foretold.
pub fn named_slot(x: u16, g: usize) -> usize
    ensures { result ≡ named_slot g x }
{
    if x == Job::FREE {
        return g;
    }
    x as usize
}

// The rack of slot g: as many racks end at g or before. For a few slots only; where every slot's rack is asked for, the racking has it.
pub fn rack_of(job: Job, g: usize) -> usize
    requires { Sound job }
    ensures { result ≡ rack_of (racks_of job) g }
{
    let mut rack: u16 = 0;
    for p in 0..job.racks {
        let end = job.ends[p] as usize;
        rack += u16::from(end <= g);
    }
    rack as usize
}

// Each slot's rack. What stands behind the last slot is left.
pub fn fill_racking(job: Job, racking: &mut [u8; Job::MAX_SLOTS])
    requires { Sound job × (length racking.old ≡ SLOTS) }
    ensures { Racked (racks_of job) racking.new }
{
    let mut low: usize = 0;
    for p in 0..job.racks {
        let end = job.ends[p] as usize;
        entries::parts::fill(racking, low, end, p as u8);
        low = end;
    }
}

// The check of a table, by marks that are lent. They serve both passes: a table that is refused is searched in those that the quick pass
// has used.
pub fn check_marks(job: Job, places: &[u16], marks: &mut [u8; Job::MARKS]) -> Result<(), Refusal>
    requires { Sound job × (length marks.old ≡ MARKS) }
    ensures judged { Judged job places.now (refused result) }
    ensures long { length marks.new ≡ MARKS }
{
    if places.len() != job.slots {
        return Err(Refusal::BadLength);
    }
    if entries::parts::entries_clear(job, places, marks) {
        return Ok(());
    }
    entries::parts::check_entries(job, places, marks)
}

// The check of a table: 4 to 6.
pub fn check_places(job: Job, places: &[u16]) -> Result<(), Refusal>
    requires { Sound job }
    ensures { Judged job places.now (refused result) }
{
    let mut marks = [1u8; Job::MARKS];
    check_marks(job, places, &mut marks)
}

// The check of a table; where it passes, each slot's rack is known.
pub fn check_racked(
    job: Job,
    places: &[u16],
    racking: &mut [u8; Job::MAX_SLOTS],
) -> Result<(), Refusal>
    requires { Sound job × (length racking.old ≡ SLOTS) }
    ensures { Checked job places.now (refused result) racking.new }
{
    check_places(job, places)?;
    fill_racking(job, racking);
    Ok(())
}

// The check of b, of a table and of its cards of b bytes: 2, then 4 to 6. Where it passes, each slot's rack is known.
pub fn check_cards(
    job: Job,
    b: usize,
    places: &[u16],
    cards: &[u8],
    racking: &mut [u8; Job::MAX_SLOTS],
) -> Result<(), Refusal>
    requires { Sound job × (length racking.old ≡ SLOTS) }
    ensures { CardsChecked job b places.now cards.now (refused result) racking.new }
{
    racks::parts::check_bytes(b)?;
    if cards.len() != job.slots * b {
        return Err(Refusal::BadLength);
    }
    check_racked(job, places, racking)
}
