// Cards brought to the slots they are bound for: along a chain, and by the hand round a cycle.
ghost use Rattle.std.specs.Prelude.{◌≡◌, ◌≢◌, ◌+◌, ◌*◌, ◌≤◌, ◌<◌, length, take};
ghost use Rattle.racks.specs.Limits.{FREE, BYTES, COPIES, SLOTS};
ghost use Rattle.moves.specs.Blocks.{block, put_block};
ghost use Rattle.factors.specs.Copies.{copies};
ghost use Rattle.factors.specs.parts.Chains.{Chained};
ghost use Rattle.factors.specs.parts.Walks.{COUNTED, Sources, Unmarked, Inside, walk_count};
ghost use Rattle.copies.specs.parts.Writes.{due};
ghost use Rattle.hands.specs.parts.Hands.{WalkBrought, SlotBrought, AllBrought};

use answers::Tally;
use chains::Target;
use copies::parts::chains;
use factors::parts::walks;
use racks::Job;

// The card in slot `from` goes to the hand.
pub fn take_card(cards: &[u8], hand: &mut [u8; Job::MAX_BYTES], b: usize, from: usize)
    requires { (from * b + b ≤ length cards.now) × (b ≤ BYTES) × (length hand.old ≡ BYTES) }
    ensures card { take b hand.new ≡ block b from cards.now }
    ensures long { length hand.new ≡ BYTES }
{
    let f = from * b;
    hand[..b].copy_from_slice(&cards[f..f + b]);
}

// The hand goes to slot `to`.
pub fn lay_card(cards: &mut [u8], hand: &[u8], b: usize, to: usize)
    requires { (to * b + b ≤ length cards.old) × (b ≤ BYTES) × (length hand.now ≡ BYTES) }
    ensures { cards.new ≡ put_block b to (take b hand.now) cards.old }
{
    racks::parts::put(cards, to * b, &hand[..b]);
}

// The target of cards that are brought: copies are made among cards of b bytes, and the card of a slot goes to another too. With it `chains`
// brings the cards of any chain.
#[derive(Clone, Copy)]
pub struct Cards {
    pub b: usize,
}

impl Target for Cards {
    type Item = u8;

    ghost step = { λ target at from to cards. put_block target.b to (block target.b from cards) cards };

    ghost ready = { λ target slots copies long. (target.b ≤ BYTES) × (long ≡ slots * target.b) };

    fn copy(self, cards: &mut [u8], _at: usize, from: usize, to: u16) {
        carrying::parts::copy_card(cards, self.b, from, to as usize);
    }

    ghost fewer = { λ target slots m n long h r. r };
}

// The cards of a factor: along a shift, or by the hand; the tally with the copies made.
pub fn bring_walk(
    places: &[u16],
    cards: &mut [u8],
    hand: &mut [u8; Job::MAX_BYTES],
    b: usize,
    head: usize,
    left: usize,
    end: u16,
    tally: Tally,
) -> Tally
    requires { Inside places.now left head × (length places.now ≤ SLOTS) × (end ≢ FREE → end < length places.now) × (tally.copies + walk_count left end ≤ COPIES) × (b ≤ BYTES) × (length cards.old ≡ length places.now * b) × (length hand.old ≡ BYTES) }
    ensures { WalkBrought b places.now head left end cards.old hand.old tally result cards.new hand.new }
{
    if end == Job::FREE {
        return chains::make_chain(Cards { b }, &places, cards, head, left, tally);
    }
    take_card(cards, hand, b, end as usize);
    let held = tally.add_copy();
    let shifted = chains::make_chain(Cards { b }, &places, cards, head, left, held);
    lay_card(cards, hand, b, head);
    shifted.add_copy()
}

// The cards of the factor of slot k, unless it is marked; the tally with the copies made.
pub fn bring_slot(
    places: &[u16],
    sources: &[u16],
    seen: &mut [u8; Job::MAX_SLOTS],
    cards: &mut [u8],
    hand: &mut [u8; Job::MAX_BYTES],
    b: usize,
    k: usize,
    tally: Tally,
) -> Tally
    requires { Chained places.now × Sources places.now sources.now × (k < length places.now) × (length seen.old ≡ SLOTS) × (tally.copies + length (copies places.now (due places.now COUNTED seen.old k)) ≤ COPIES) × (b ≤ BYTES) × (length cards.old ≡ length places.now * b) × (length hand.old ≡ BYTES) }
    ensures { SlotBrought b places.now k seen.old cards.old hand.old tally result seen.new cards.new hand.new }
{
    if seen[k] == walks::COUNTED {
        return tally;
    }
    let w = walks::walk_factor(places, sources, seen, walks::COUNTED, k);
    bring_walk(places, cards, hand, b, w.head, w.left, w.end, tally)
}

// Every factor brought home, by its lowest slot; the tally with the copies made.
pub fn bring_factors(
    places: &[u16],
    sources: &[u16],
    seen: &mut [u8; Job::MAX_SLOTS],
    cards: &mut [u8],
    hand: &mut [u8; Job::MAX_BYTES],
    b: usize,
    tally: Tally,
) -> Tally
    requires { Chained places.now × Sources places.now sources.now × Unmarked places.now COUNTED seen.old × (b ≤ BYTES) × (length cards.old ≡ length places.now * b) × (length hand.old ≡ BYTES) × (tally.copies ≡ 0) }
    ensures { AllBrought b places.now cards.old hand.old tally result cards.new }
{
    let mut sum = tally;
    for k in 0..places.len() {
        sum = bring_slot(places, sources, seen, cards, hand, b, k, sum);
    }
    sum
}
