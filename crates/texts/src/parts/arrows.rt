// Slots and arrows, written into a lent buffer.
ghost use Rattle.counting.specs.Lists.{join, each};
ghost use Rattle.carrying.specs.parts.Carrying.{unflat};
ghost use Rattle.texts.specs.Lines.{slot_text, arrow};
ghost use Rattle.texts.specs.parts.Writing.{Reaches, Wrote};

use crate::parts::words;
use racks::Job;

// A slot, or `h` for the hand.
pub fn put_slot(out: &mut [u8], at: usize, x: u16) -> usize
    requires { Reaches (slot_text x) at out.old }
    ensures { Wrote (slot_text x) out.old at out.new result }
{
    if x == Job::HAND {
        return words::put_byte(out, at, b'h');
    }
    words::put_decimal(out, at, x as usize)
}

// A move or a copy: a space, then from>to.
pub fn put_arrow(out: &mut [u8], at: usize, from: u16, to: u16) -> usize
    requires { Reaches (arrow (from, to)) at out.old }
    ensures { Wrote (arrow (from, to)) out.old at out.new result }
{
    let first = words::put_byte(out, at, b' ');
    let middle = put_slot(out, first, from);
    let second = words::put_byte(out, middle, b'>');
    put_slot(out, second, to)
}

// The arrows of the pairs of a list of numbers.
pub fn put_arrows(out: &mut [u8], at: usize, pairs: &[u16]) -> usize
    requires { Reaches (join (each arrow (unflat pairs.now))) at out.old }
    ensures { Wrote (join (each arrow (unflat pairs.now))) out.old at out.new result }
{
    let mut next = at;
    for i in 0..pairs.len() / 2 {
        next = put_arrow(out, next, pairs[2 * i], pairs[2 * i + 1]);
    }
    next
}
