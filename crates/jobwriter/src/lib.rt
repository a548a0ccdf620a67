// The writer of job files.
#![tactic(auto)]

ghost use Rattle.answers.specs.Answers.{size_answered};
ghost use Rattle.jobwriter.specs.Writing.{WriteFile};

use answers::Refusal;
use racks::Job;

pub mod parts;

// Write file: the file of a job, from the front of the lent buffer; gives how many bytes it has.
pub fn write_file(
    caps: &[u16],
    b: usize,
    places: &[u16],
    cards: &[u8],
    out: &mut [u8],
) -> Result<usize, Refusal>
    ensures { WriteFile caps.now b places.now cards.now out.old (size_answered result) out.new }
{
    let job = Job::of_cards(caps, b)?;
    parts::write_job(&job, b, places, cards, out)
}
