// The copy list: its copies counted, and written into a lent list.
ghost use Rattle.std.specs.Prelude.{◌≡◌, [], ◌∷◌, ◌+◌, ◌*◌, ◌≤◌, ◌<◌, length};
ghost use Rattle.std.proofs.Math.Nat.{le_trans, mul-le-mul_left};
ghost use Rattle.answers.specs.Answers.{plus_copies};
ghost use Rattle.racks.specs.Limits.{COPIES, SLOTS};
ghost use Rattle.factors.specs.Copies.{copies, copy_list};
ghost use Rattle.factors.specs.parts.Chains.{Chained};
ghost use Rattle.factors.specs.parts.Walks.{COUNTED, LISTED, Sources, Unmarked, Inside, walked, walk_count};
ghost use Rattle.copies.specs.parts.Writes.{put_copies, due, Counted, CopiesWritten, AllWritten, fits};

use crate::parts::chains;
use answers::Tally;
use chains::Target;
use factors::parts::walks;
use racks::Job;

// How many copies a factor has: one for each slot after the first, and two more by the hand.
pub fn count_walk(left: usize, end: u16) -> usize
    requires { left ≤ COPIES }
    ensures { result ≡ walk_count left end }
{
    if end == Job::FREE {
        return left;
    }
    left + 2
}

// The copies of the factor of slot k are counted, unless it is marked.
pub fn count_slot(
    places: &[u16],
    sources: &[u16],
    seen: &mut [u8; Job::MAX_SLOTS],
    k: usize,
    at: usize,
) -> usize
    requires { Chained places.now × Sources places.now sources.now × (k < length places.now) × (length seen.old ≡ SLOTS) × (at + length (copies places.now (due places.now COUNTED seen.old k)) ≤ COPIES) }
    ensures { Counted places.now COUNTED k at seen.old result seen.new }
{
    if seen[k] == walks::COUNTED {
        return at;
    }
    let w = walks::walk_factor(places, sources, seen, walks::COUNTED, k);
    let count = count_walk(w.left, w.end);
    at + count
}

// How many copies the list has. The marks that are left do not hinder its writing.
pub fn count_factors(places: &[u16], sources: &[u16], seen: &mut [u8; Job::MAX_SLOTS]) -> usize
    requires { Chained places.now × Sources places.now sources.now × Unmarked places.now COUNTED seen.old × Unmarked places.now LISTED seen.old }
    ensures count { result ≡ length (copy_list places.now) }
    ensures marks { Unmarked places.now LISTED seen.new }
{
    let mut at: usize = 0;
    for k in 0..places.len() {
        at = count_slot(places, sources, seen, k, at);
    }
    at
}

// Whether a list of so many numbers has room for the copies. No more than three numbers a slot are ever written: for a list as long as that
// nothing has to be counted.
pub fn has_room(
    places: &[u16],
    sources: &[u16],
    seen: &mut [u8; Job::MAX_SLOTS],
    room: usize,
) -> bool
    requires { Chained places.now × Sources places.now sources.now × Unmarked places.now COUNTED seen.old × Unmarked places.now LISTED seen.old }
    ensures room { result ≡ fits room places.now }
    ensures marks { Unmarked places.now LISTED seen.new }
{
    if 3 * places.len() <= room {
        return true;
    }
    2 * count_factors(places, sources, seen) <= room
}

// Copy number `at` of the list: from, and then to.
pub fn put_copy(list: &mut [u16], at: usize, from: u16, to: u16)
    requires { (at < COPIES) × (2 * at + 2 ≤ length list.old) }
    ensures { list.new ≡ put_copies list.old at ((from, to) ∷ []) }
{
    list[2 * at] = from;
    list[2 * at + 1] = to;
}

// The target of a copy list: copies are written into a list of numbers, two for each. With it `chains` writes the copies of any chain.
#[derive(Clone, Copy)]
pub struct Numbers;

impl Target for Numbers {
    type Item = u16;

    ghost step = { λ target at from to list. put_copies list at ((from, to) ∷ []) };

    ghost ready = { λ target slots copies long. 2 * copies ≤ long };

    fn copy(self, list: &mut [u16], at: usize, from: usize, to: u16) {
        put_copy(list, at, from as u16, to);
    }

    ghost fewer = { λ target slots m n long h r. le_trans (mul-le-mul_left 2 h) r };
}

// The copies of a factor: of a shift, or by the hand.
pub fn write_walk(
    places: &[u16],
    list: &mut [u16],
    head: usize,
    left: usize,
    end: u16,
    tally: Tally,
) -> Tally
    requires { Inside places.now left head × (length places.now ≤ SLOTS) × (tally.copies + walk_count left end ≤ COPIES) × (2 * (tally.copies + walk_count left end) ≤ length list.old) }
    ensures counts { result ≡ plus_copies (walk_count left end) tally }
    ensures copies { list.new ≡ put_copies list.old tally.copies (walked places.now head left end) }
{
    if end == Job::FREE {
        return chains::make_chain(Numbers, &places, list, head, left, tally);
    }
    let first = tally.copies;
    put_copy(list, first, end, Job::HAND);
    let held = tally.add_copy();
    let shifted = chains::make_chain(Numbers, &places, list, head, left, held);
    let last = shifted.copies;
    put_copy(list, last, Job::HAND, head as u16);
    shifted.add_copy()
}

// The copies of the factor of slot k are written, unless it is marked; the tally with them.
pub fn write_slot(
    places: &[u16],
    sources: &[u16],
    seen: &mut [u8; Job::MAX_SLOTS],
    list: &mut [u16],
    k: usize,
    tally: Tally,
) -> Tally
    requires { Chained places.now × Sources places.now sources.now × (k < length places.now) × (length seen.old ≡ SLOTS) × (tally.copies + length (copies places.now (due places.now LISTED seen.old k)) ≤ COPIES) × (2 * (tally.copies + length (copies places.now (due places.now LISTED seen.old k))) ≤ length list.old) }
    ensures { CopiesWritten places.now LISTED k list.old seen.old tally result list.new seen.new }
{
    if seen[k] == walks::LISTED {
        return tally;
    }
    let w = walks::walk_factor(places, sources, seen, walks::LISTED, k);
    write_walk(places, list, w.head, w.left, w.end, tally)
}

// The copies of every factor, by its lowest slot, from the front of the lent list; the tally, which has none before, with them.
pub fn write_factors(
    places: &[u16],
    sources: &[u16],
    seen: &mut [u8; Job::MAX_SLOTS],
    list: &mut [u16],
    tally: Tally,
) -> Tally
    requires { Chained places.now × Sources places.now sources.now × Unmarked places.now LISTED seen.old × (2 * length (copy_list places.now) ≤ length list.old) × (tally.copies ≡ 0) }
    ensures { AllWritten places.now list.old seen.old tally result list.new seen.new }
{
    let mut sum = tally;
    for k in 0..places.len() {
        sum = write_slot(places, sources, seen, list, k, sum);
    }
    sum
}
