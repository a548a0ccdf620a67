// What writes the listing: the text of a file, and a text handed over into a lent buffer.
ghost use Rattle.std.specs.Prelude.{◌≤◌, ◌≡◌, length};
ghost use Rattle.answers.specs.Answers.{size_answered, sized_of};
ghost use Rattle.texts.specs.parts.Writing.{Wrote};
ghost use Rattle.listing.specs.Listing.{ENOUGH, listing, handed_over};

use answers::Refusal;
use racks::Job;
use runtexts::parts::jobs;
use texts::parts::{lines, words};

// The text of a file: 18 is looked at before all else.
pub fn put_listing(out: &mut [u8], file: &[u8]) -> usize
    requires { ENOUGH ≤ length out.old }
    ensures { Wrote (listing file.now) out.old 0 out.new result }
{
    if texts::FILE < file.len() {
        return lines::put_refused(out, 0, Refusal::FileLarge.number());
    }
    let mut caps = [0u16; Job::MAX_RACKS];
    let mut places = [0u16; Job::MAX_SLOTS];
    let found = parsing::parts::parse(file, &mut caps, &mut places);
    match found {
        Ok(job) => jobs::put_job(
            out,
            &caps[..job.racks],
            job.bytes,
            &mut places[..job.slots],
            jobfile::card_bytes(file, found),
        ),
        Err(refusal) => lines::put_refused(out, 0, refusal.number()),
    }
}

// A text, to the front of the lent buffer; 13 where that is too short for it.
pub fn hand_over(text: &[u8], out: &mut [u8]) -> Result<usize, Refusal>
    ensures { sized_of (size_answered result) out.new ≡ handed_over text.now out.old }
{
    if out.len() < text.len() {
        return Err(Refusal::TooShort);
    }
    Ok(words::put_text(out, 0, text))
}
