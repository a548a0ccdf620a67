// The free slots of a table as a set of bits, found word by word.
ghost use Rattle.std.specs.Prelude.{◌≤◌, length};
ghost use Rattle.racks.specs.Limits.{SLOTS};
ghost use Rattle.bits.specs.parts.Bits.{WORDS};
ghost use Rattle.queues.specs.parts.Line.{Blank};
ghost use Rattle.queues.specs.parts.Openings.{Word, FreeSet};

use racks::Job;

// The word of at most 64 slots: a bit is on where its slot is free. From the last slot down, each makes room for one more: no branch on a
// slot, which could not be foretold, and no store that the next slot would wait for.
fn free_word(slots: &[u16]) -> u64
    requires { length slots.now ≤ 64 }
    ensures { Word slots.now 0 (length slots.now) result }
{
    let mut word: u64 = 0;
    for entry in slots.iter().rev() {
        word = 2 * word + u64::from(*entry == Job::FREE);
    }
    word
}

// The set of the free slots of a table.
pub fn find_free(places: &[u16], bits: &mut [u64; bits::parts::WORDS])
    requires { (length places.now ≤ SLOTS) × Blank WORDS bits.old }
    ensures { FreeSet places.now bits.new }
{
    for (w, slots) in places.chunks(64).enumerate() {
        bits::parts::fill_word(bits, w, free_word(slots));
    }
}
