// What the writer puts together: numbers counted, then put one behind another into the lent buffer, then the card bytes.
ghost use Rattle.std.specs.Prelude.{◌≡◌, List, ℕ, ◌+◌, ◌≤◌, ◌<◌, length, get_or};
ghost use Rattle.std.proofs.lemmas.List.Edits.{sets};
ghost use Rattle.counting.specs.Lists.{each};
ghost use Rattle.racks.specs.Limits.{SLOTS};
ghost use Rattle.racks.specs.Job.{racks_of, Sound, SoundSpared};
ghost use Rattle.answers.specs.Answers.{size_answered, sized_of};
ghost use Rattle.jobwriter.specs.Writing.{numeral_of, numerals_of, file_entry, cap_of, file_numbers, file_for};
ghost use Rattle.jobwriter.specs.parts.Puts.{Short, Put, Roomy, Gives, Writable, filed_by};

use answers::Refusal;
use racks::Job;

// An entry as the file has it. Two returns that become one choice, not a branch.
fn file_entry(x: u16) -> u16
    ensures { result ≡ file_entry x }
{
    if x == Job::FREE {
        return 0;
    }
    x + 1
}

// A number of at most two groups. Its second byte is put even where it has one group: what comes behind it is put over that, so there is no branch,
// which could not be foretold where free and taken slots alternate at random.
fn put_number(out: &mut [u8], at: usize, x: u16) -> usize
    requires { (x < 16384) × (at + 1 < length out.old) }
    ensures { Put (numeral_of x) out.old at out.new result }
{
    let more = u16::from(128 <= x);
    out[at] = (x % 128 + 128 * more) as u8;
    out[at + 1] = (x / 128) as u8;
    at + 1 + more as usize
}

// m_p of rack p: from where the rack begins to its spares.
fn cap_at(job: &Job, p: usize) -> u16
    requires { Sound job.now × (p < job.now.racks) }
    ensures { result ≡ get_or (each cap_of (racks_of job.now)) p 0 }
{
    job.spares[p] - racks::parts::first_slot(&job.ends, p)
}

// n numbers, each by its place, put one behind another; the position behind them.
fn put_numbers<F: Fn(usize) -> u16>(out: &mut [u8], at: usize, n: usize, number: F) -> usize
    requires { (xs : List ℕ) × Gives (F.pre number) (F.post number) n xs × Roomy xs at out.old }
    ensures { (xs : List ℕ) → Gives (F.pre number) (F.post number) n xs → Put (numerals_of xs) out.old at out.new result }
{
    let mut next = at;
    for i in 0..n {
        next = put_number(out, next, number(i));
    }
    next
}

// How many bytes such numbers are in the file: one each, and one more for each of two groups.
fn count_bytes<F: Fn(usize) -> u16>(n: usize, number: F) -> usize
    requires { (xs : List ℕ) × Gives (F.pre number) (F.post number) n xs × (n ≤ SLOTS) }
    ensures { (xs : List ℕ) → Gives (F.pre number) (F.post number) n xs → result ≡ length (numerals_of xs) }
{
    let mut more: u16 = 0;
    for i in 0..n {
        more += u16::from(128 <= number(i));
    }
    n + more as usize
}

// How many bytes all numbers of the file are: N has one group.
fn numbers_size(job: Job, b: usize, places: &[u16]) -> usize
    requires { Writable job b places.now }
    ensures { result ≡ length (numerals_of (file_numbers (racks_of job) b places.now)) }
{
    let more = usize::from(128 <= b);
    let caps = count_bytes(job.racks, |p| cap_at(&job, p));
    let entries = count_bytes(places.len(), |g| file_entry(places[g]));
    2 + more + caps + entries
}

// The file, from the front of a buffer that has room for it. There are card bytes, which are put over what the last number left behind it.
fn put_file(job: Job, b: usize, places: &[u16], cards: &[u8], out: &mut [u8])
    requires { Writable job b places.now × (0 < length cards.now) × (length (file_for (racks_of job) b places.now cards.now) ≤ length out.old) }
    ensures { out.new ≡ sets out.old 0 (file_for (racks_of job) b places.now cards.now) }
{
    let mut next = put_number(out, 0, job.racks as u16);
    next = put_number(out, next, b as u16);
    next = put_numbers(out, next, job.racks, |p| cap_at(&job, p));
    next = put_numbers(out, next, places.len(), |g| file_entry(places[g]));
    racks::parts::put(out, next, cards);
}

// Write file, by the job: the length first, then one pass.
pub fn write_job(
    job: &Job,
    b: usize,
    places: &[u16],
    cards: &[u8],
    out: &mut [u8],
) -> Result<usize, Refusal>
    requires { SoundSpared job.now }
    ensures { sized_of (size_answered result) out.new ≡ filed_by job.now b places.now cards.now out.old }
{
    let mut racking = [0u8; Job::MAX_SLOTS];
    tables::parts::check_cards(*job, b, places, cards, &mut racking)?;
    let size = numbers_size(*job, b, places) + cards.len();
    if out.len() < size {
        return Err(Refusal::BufferShort);
    }
    put_file(*job, b, places, cards, out);
    Ok(size)
}
