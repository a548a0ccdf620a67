// What the file reader is made of: the capacities, the entries, the card bytes, the whole file.
ghost use Rattle.std.specs.Prelude.{◌≡◌, ◌<◌, ◌≤◌, length};
ghost use Rattle.answers.specs.Answers.{placeless, refused};
ghost use Rattle.racks.specs.Limits.{RACKS, SLOTS};
ghost use Rattle.racks.specs.Job.{racks_of, Sound};
ghost use Rattle.entries.specs.parts.Marks.{UsersMarked};
ghost use Rattle.parsing.specs.File.{entry_of};
ghost use Rattle.parsing.specs.parts.Parsing.{end_number, CapsRead, HeadRead, EntriesRead, Parsed};

use crate::FileJob;
use answers::Refusal;
use entries::parts::{check_twice, first_twice, name_entry};
use numerals::parts::bounded_numeral;
use racks::Job;

// The m_p, n of them, to the front of a list of the reader's own; the position behind them. With each the highest that is not refused is the
// lower of a rack's limit and of what is left of all racks' limit.
fn read_caps(
    file: &[u8],
    at: usize,
    n: usize,
    caps: &mut [u16; Job::MAX_RACKS],
) -> Result<usize, Refusal>
    requires { (n ≤ RACKS) × (length caps.old ≡ RACKS) }
    ensures { CapsRead file.now at n result caps.new }
{
    let mut next = at;
    let mut total: usize = 0;
    for p in 0..n {
        let high = (Job::MAX_TOTAL - total).min(Job::MAX_USERS);
        let m = bounded_numeral(file, next, 0, high, Refusal::BadSize)?;
        caps[p] = m.value as u16;
        total += m.value;
        next = m.next;
    }
    Ok(next)
}

// What the front of a file gives: N, B, and the position behind the capacities.
#[derive(Clone, Copy)]
pub struct Head {
    pub racks: usize,
    pub bytes: usize,
    pub next: usize,
}

// N, B and the m_p.
fn read_head(file: &[u8], caps: &mut [u16; Job::MAX_RACKS]) -> Result<Head, Refusal>
    requires { length caps.old ≡ RACKS }
    ensures { HeadRead file.now result caps.new }
{
    let racks = bounded_numeral(file, 0, 1, Job::MAX_RACKS, Refusal::BadCount)?;
    let bytes = bounded_numeral(file, racks.next, 1, Job::MAX_BYTES, Refusal::BadBytes)?;
    let next = read_caps(file, bytes.next, racks.value, caps)?;
    Ok(Head {
        racks: racks.value,
        bytes: bytes.value,
        next,
    })
}

// An entry as the places table has it: 0 free, else destination + 1.
fn entry_of(x: usize) -> u16
    requires { x ≤ SLOTS }
    ensures { result ≡ entry_of x }
{
    if x == 0 {
        return Job::FREE;
    }
    (x - 1) as u16
}

// The S entries, to the front of a list of the reader's own, and the position behind them: 14, 15, 20 or 5 at once, 6 after the last.
fn read_entries(
    job: Job,
    file: &[u8],
    at: usize,
    marks: &mut [u8; Job::MAX_SLOTS],
    places: &mut [u16; Job::MAX_SLOTS],
) -> Result<usize, Refusal>
    requires { Sound job × UsersMarked (racks_of job) marks.old × (length places.old ≡ SLOTS) }
    ensures { EntriesRead (racks_of job) file.now at result places.new }
{
    let mut next = at;
    let mut twice = None;
    for g in 0..job.slots {
        let x = bounded_numeral(file, next, 0, Job::MAX_SLOTS, Refusal::BadEntry(g))?;
        let entry = entry_of(x.value);
        let again = name_entry(marks, entry, g)?;
        twice = first_twice(twice, again, g);
        places[g] = entry;
        next = x.next;
    }
    check_twice(twice)?;
    Ok(next)
}

// The S entries, with the marks made.
fn read_table(
    job: Job,
    file: &[u8],
    at: usize,
    places: &mut [u16; Job::MAX_SLOTS],
) -> Result<usize, Refusal>
    requires { Sound job × (length places.old ≡ SLOTS) }
    ensures { EntriesRead (racks_of job) file.now at result places.new }
{
    let mut marks = [0u8; Job::MAX_SLOTS];
    entries::parts::mark_users(job, &mut marks);
    read_entries(job, file, at, &mut marks, places)
}

// 15 or 16: the bytes behind a position are not as many as the cards take.
fn check_end(file: &[u8], at: usize, want: usize) -> Result<(), Refusal>
    ensures { refused result ≡ placeless (end_number file.now at want) }
{
    let left = file.len().saturating_sub(at);
    if left < want {
        return Err(Refusal::FileEnds);
    }
    if want < left {
        return Err(Refusal::FileLeftOver);
    }
    Ok(())
}

// The whole file, with the capacities and places at the front of the reader's own lists: all checks but 17.
pub fn parse(
    file: &[u8],
    caps: &mut [u16; Job::MAX_RACKS],
    places: &mut [u16; Job::MAX_SLOTS],
) -> Result<FileJob, Refusal>
    requires { (length caps.old ≡ RACKS) × (length places.old ≡ SLOTS) }
    ensures { Parsed file.now result caps.new places.new }
{
    let head = read_head(file, caps)?;
    let job = racks::parts::job_of(&caps[..head.racks]);
    let start = read_table(job, file, head.next, places)?;
    check_end(file, start, job.slots * head.bytes)?;
    Ok(FileJob {
        racks: head.racks,
        bytes: head.bytes,
        slots: job.slots,
        start,
    })
}
