// What the calls that move cards share: a card copied, a slot blanked, a card moved, a list of moves carried.
ghost use Rattle.std.specs.Prelude.{◌≡◌, [], ◌∷◌, ◌+◌, ◌*◌, ◌≤◌, ◌<◌, length};
ghost use Rattle.moves.specs.Blocks.{block, put_block, blank};
ghost use Rattle.moves.specs.Moves.{carried, held};
ghost use Rattle.carrying.specs.parts.Carrying.{unflat, AllSlots, Carried};

use answers::Tally;
use racks::Job;

// The card in slot `from` into slot `to` too: its bytes take the place of those that were there.
pub fn copy_card(cards: &mut [u8], b: usize, from: usize, to: usize)
    requires { (from * b + b ≤ length cards.old) × (to * b + b ≤ length cards.old) }
    ensures { cards.new ≡ put_block b to (block b from cards.old) cards.old }
{
    // Kept: tried `copy_within`, which copies a card upwards from its end; calls that move cards of 256 bytes took a quarter longer.
    for i in 0..b {
        cards[to * b + i] = cards[from * b + i];
    }
}

// Slot g all zero: where no card stands, no byte of one is left.
pub fn blank_card(cards: &mut [u8], b: usize, g: usize)
    requires { g * b + b ≤ length cards.old }
    ensures { cards.new ≡ put_block b g (blank b) cards.old }
{
    cards[g * b..g * b + b].fill(0);
}

// The card in slot `from` to slot `to`, entry and bytes; its old slot is free and blank from now on.
pub fn move_card(places: &mut [u16], cards: &mut [u8], b: usize, from: usize, to: usize)
    requires sized { length places.old * b ≡ length cards.old }
    requires slots { (from < length places.old) × (to < length places.old) }
    ensures { held places.new cards.new ≡ carried b ((from, to) ∷ []) (held places.old cards.old) }
{
    places[to] = places[from];
    places[from] = Job::FREE;
    copy_card(cards, b, from, to);
    blank_card(cards, b, from);
}

// The moves of `pairs`, from and to of each, in their order; gives the tally with each of them added.
pub fn carry(pairs: &[u16], places: &mut [u16], cards: &mut [u8], b: usize, tally: Tally) -> Tally
    requires sized { length places.old * b ≡ length cards.old }
    requires slots { AllSlots (length places.old) (unflat pairs.now) }
    requires counted { tally.moves + length pairs.now < 18446744073709551615 }
    ensures { Carried b (unflat pairs.now) (held places.old cards.old) tally (held places.new cards.new) result }
{
    let mut made = tally;
    for pair in pairs.chunks_exact(2) {
        move_card(places, cards, b, pair[0] as usize, pair[1] as usize);
        made = made.add_move();
    }
    made
}
