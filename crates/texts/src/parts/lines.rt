// The lines of the listing, written into a lent buffer.
ghost use Rattle.std.specs.Prelude.{◌≡◌, ◌+◌, ◌*◌, ◌≤◌, length};
ghost use Rattle.counting.specs.Lists.{join, tabulate};
ghost use Rattle.carrying.specs.parts.Carrying.{unflat};
ghost use Rattle.texts.specs.Lines.{copies_line, card_text, cards_line, end_line, refused_line, phase_line};
ghost use Rattle.texts.specs.parts.Writing.{Reaches, Wrote};

use crate::parts::{arrows, words};
use answers::Tally;

// A phase line, of the pairs of a list of numbers.
pub fn put_phase(out: &mut [u8], at: usize, k: usize, pairs: &[u16]) -> usize
    requires { Reaches (phase_line k (unflat pairs.now)) at out.old }
    ensures { Wrote (phase_line k (unflat pairs.now)) out.old at out.new result }
{
    let mut next = words::put_text(out, at, b"phase ");
    next = words::put_decimal(out, next, k);
    next = words::put_byte(out, next, b':');
    next = arrows::put_arrows(out, next, pairs);
    words::put_byte(out, next, b'\n')
}

// The line of the copies of a list of numbers.
pub fn put_copies(out: &mut [u8], at: usize, list: &[u16]) -> usize
    requires { Reaches (copies_line (unflat list.now)) at out.old }
    ensures { Wrote (copies_line (unflat list.now)) out.old at out.new result }
{
    let mut next = words::put_text(out, at, b"copies:");
    next = arrows::put_arrows(out, next, list);
    words::put_byte(out, next, b'\n')
}

// A space, then the bytes of slot g.
pub fn put_card(out: &mut [u8], at: usize, b: usize, cards: &[u8], g: usize) -> usize
    requires { (g * b + b ≤ length cards.now) × Reaches (card_text b cards.now g) at out.old }
    ensures { Wrote (card_text b cards.now g) out.old at out.new result }
{
    let next = words::put_byte(out, at, b' ');
    let low = g * b;
    words::put_hexes(out, next, &cards[low..low + b])
}

// The bytes of each slot, a space before each.
pub fn put_slots(out: &mut [u8], at: usize, s: usize, b: usize, cards: &[u8]) -> usize
    requires { (length cards.now ≡ s * b) × Reaches (join (tabulate s (card_text b cards.now))) at out.old }
    ensures { Wrote (join (tabulate s (card_text b cards.now))) out.old at out.new result }
{
    let mut next = at;
    for g in 0..s {
        next = put_card(out, next, b, cards, g);
    }
    next
}

// The cards line.
pub fn put_cards(out: &mut [u8], at: usize, s: usize, b: usize, cards: &[u8]) -> usize
    requires { (length cards.now ≡ s * b) × Reaches (cards_line s b cards.now) at out.old }
    ensures { Wrote (cards_line s b cards.now) out.old at out.new result }
{
    let mut next = words::put_text(out, at, b"cards:");
    next = put_slots(out, next, s, b, cards);
    words::put_byte(out, next, b'\n')
}

// The end line: the three counts.
pub fn put_end(out: &mut [u8], at: usize, tally: Tally) -> usize
    requires { Reaches (end_line tally) at out.old }
    ensures { Wrote (end_line tally) out.old at out.new result }
{
    let mut next = words::put_text(out, at, b"end: phases ");
    next = words::put_decimal(out, next, tally.phases);
    next = words::put_text(out, next, b" moves ");
    next = words::put_decimal(out, next, tally.moves);
    next = words::put_text(out, next, b" copies ");
    next = words::put_decimal(out, next, tally.copies);
    words::put_byte(out, next, b'\n')
}

// The line of a refusal.
pub fn put_refused(out: &mut [u8], at: usize, number: u8) -> usize
    requires { Reaches (refused_line number) at out.old }
    ensures { Wrote (refused_line number) out.old at out.new result }
{
    let mut next = words::put_text(out, at, b"refused ");
    next = words::put_decimal(out, next, number as usize);
    words::put_byte(out, next, b'\n')
}
