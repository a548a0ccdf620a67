// The entries of a table: their refusal by marks, in a quick pass that only says whether there is none, and in one that finds it.
ghost use Rattle.std.specs.Prelude.{◌≡◌, true, ◌≤◌, ◌<◌, length, IfErr};
ghost use Rattle.counting.specs.Tests.{pick};
ghost use Rattle.answers.specs.Answers.{refused};
ghost use Rattle.answers.specs.declared.Refusal.TheVariants as case;
ghost use Rattle.racks.specs.Limits.{SLOTS, MARKS};
ghost use Rattle.racks.specs.Job.{racks_of, Sound};
ghost use Rattle.entries.specs.parts.Marks.{FilledFrom, Cleared, UsersMarked, Entered, naming_number, entries_number, entries_refusal, first_twice, twice_in};
ghost use Rattle.entries.specs.parts.Once.{mark_at, MarkTaken, OnceMarked};

use answers::Refusal;
use racks::Job;

// One value from `low` up to `high` in a list of bytes.
pub fn fill(list: &mut [u8], low: usize, high: usize, value: u8)
    requires { high ≤ length list.old }
    ensures { FilledFrom low high value list.old list.new }
{
    for g in low..high {
        list[g] = value;
    }
}

// 1 for each user slot, where the marks of all slots are 0.
pub fn mark_users(job: Job, marks: &mut [u8])
    requires { Sound job × Cleared marks.old }
    ensures { UsersMarked (racks_of job) marks.new }
{
    let mut low: usize = 0;
    for p in 0..job.racks {
        let spare = job.spares[p] as usize;
        fill(marks, low, spare, 1);
        low = job.ends[p] as usize;
    }
}

// Entry g is named from now on: refused where it names no user slot; whether it repeats an earlier one.
pub fn name_entry(marks: &mut [u8], x: u16, g: usize) -> Result<bool, Refusal>
    requires { SLOTS ≤ length marks.old }
    ensures number { Entered marks.old x (naming_number result) marks.new }
    ensures entry { IfErr result (λ e. e ≡ case.BadEntry g) }
{
    if x == Job::FREE {
        return Ok(false);
    }
    let at = x as usize;
    if Job::MAX_SLOTS <= at {
        return Err(Refusal::BadEntry(g));
    }
    let mark = marks[at];
    if mark == 0 {
        return Err(Refusal::BadEntry(g));
    }
    if mark != 1 {
        return Ok(true);
    }
    marks[at] = 2;
    Ok(false)
}

// The first entry that repeats an earlier one: that before entry g, or g itself where it does.
pub fn first_twice(was: Option<usize>, again: bool, g: usize) -> Option<usize>
    ensures { twice_in result ≡ first_twice (twice_in was) (pick again 6 0) g }
{
    if again {
        return was.or(Some(g));
    }
    was
}

// 6 where an entry repeats an earlier one.
pub fn check_twice(twice: Option<usize>) -> Result<(), Refusal>
    ensures { refused result ≡ twice_in twice }
{
    match twice {
        Some(g) => Err(Refusal::NamedTwice(g)),
        None => Ok(()),
    }
}

// 5 or 6 for the entries, S of them, with its place: one pass. The marks are lent with the user slots marked.
fn check_marked(job: Job, places: &[u16], marks: &mut [u8]) -> Result<(), Refusal>
    requires { Sound job × (length places.now ≡ job.slots) × UsersMarked (racks_of job) marks.old }
    ensures { refused result ≡ entries_refusal (racks_of job) places.now }
{
    let mut twice = None;
    for (g, x) in places.iter().enumerate() {
        let again = name_entry(marks, *x, g)?;
        twice = first_twice(twice, again, g);
    }
    check_twice(twice)
}

// The refusal of the entries of a table, in marks that were used before: only a table that is refused pays for clearing them again. What
// stands behind the slots' marks is left.
pub fn check_entries(job: Job, places: &[u16], marks: &mut [u8]) -> Result<(), Refusal>
    requires { Sound job × (length places.now ≡ job.slots) × (SLOTS ≤ length marks.old) }
    ensures { refused result ≡ entries_refusal (racks_of job) places.now }
{
    fill(marks, 0, Job::MAX_SLOTS, 0);
    mark_users(job, marks);
    check_marked(job, places, marks)
}

// The mark of each spare is shut, and the one behind the last slot; the others are left.
fn shut_spares(job: Job, marks: &mut [u8; Job::MARKS])
    requires { Sound job × (length marks.old ≡ MARKS) }
    ensures { OnceMarked (racks_of job) marks.new }
{
    let mut low: usize = 0;
    for p in 0..job.racks {
        let from = job.spares[p] as usize;
        low = job.ends[p] as usize;
        fill(marks, from, low, 0);
    }
    marks[low] = 0;
}

// Where the mark of an entry stands: a free slot has one of its own, so that no mark waits for the one before it. No branch: in a table
// where free and taken slots alternate at random none could be foretold.
fn mark_at(slots: usize, g: usize, x: u16) -> usize
    requires { (slots ≤ SLOTS) × (g < SLOTS) }
    ensures { result ≡ mark_at slots g x }
{
    if x == Job::FREE {
        return Job::MAX_SLOTS + 1 + g;
    }
    let at = x as usize;
    if slots < at {
        return slots;
    }
    at
}

// Shuts a mark; whether it was open.
fn take_mark(marks: &mut [u8; Job::MARKS], at: usize) -> bool
    requires { (at < MARKS) × (length marks.old ≡ MARKS) }
    ensures { MarkTaken marks.old at result marks.new }
{
    let mark = marks[at];
    marks[at] = 0;
    mark == 1
}

// Whether each entry found its mark open: then no entry is refused. One pass without a branch on an entry, since free and taken slots may
// alternate at random; which number a refused table gets, and with which entry, is left to `check_entries`.
fn marked_once(job: Job, places: &[u16], marks: &mut [u8; Job::MARKS]) -> bool
    requires { Sound job × (length places.now ≡ job.slots) × OnceMarked (racks_of job) marks.old }
    ensures clear { result ≡ true → 0 ≡ entries_number (racks_of job) places.now }
    ensures long { length marks.new ≡ MARKS }
{
    let mut all = true;
    for (g, x) in places.iter().enumerate() {
        let at = mark_at(job.slots, g, *x);
        let fits = take_mark(marks, at);
        all &= fits;
    }
    all
}

// Whether no entry of a table is refused. The marks are lent open, all 1, and those of the spares are shut: an entry that finds its mark
// shut, whoever shut it, is left to `check_entries`.
pub fn entries_clear(job: Job, places: &[u16], marks: &mut [u8; Job::MARKS]) -> bool
    requires { Sound job × (length places.now ≡ job.slots) × (length marks.old ≡ MARKS) }
    ensures clear { result ≡ true → 0 ≡ entries_number (racks_of job) places.now }
    ensures long { length marks.new ≡ MARKS }
{
    shut_spares(job, marks);
    marked_once(job, places, marks)
}
