// Where every card of a job goes, and its bytes.
ghost use Rattle.std.specs.Prelude.{◌*◌, ◌<◌};
ghost use Rattle.racks.specs.Limits.{SLOTS};

use racks::Job;

// Even: the same place of the next of 4 racks of 1,008. Uneven: 1,023 user slots on, round racks of 1,023 1,023 1,023 963.
// Transposed: place j of rack i to place i of rack j, of 64 racks of 63; the last rack stays. Spread: user slot 63 i + j to user slot 64 j + i.
// Swapped: neighbours of one rack of 1,023 change places; the last stays.
#[derive(Clone, Copy)]
pub enum Deal {
    Even,
    Uneven,
    Transposed,
    Spread,
    Swapped,
}

fn even(g: u16) -> u16
    requires { g < SLOTS }
{
    if g % 1009 == 1008 {
        return Job::FREE;
    }
    if g < 3027 {
        return g + 1009;
    }
    g - 3027
}

// The user slot `u` of 4,032, counted through racks of 1,023 1,023 1,023 963, as a slot; round from the last to the first.
fn uneven_slot(u: u16) -> u16
    requires { u < 2 * SLOTS }
{
    let v = u % 4032;
    v + v / 1023
}

fn uneven(g: u16) -> u16
    requires { g < SLOTS }
{
    if g % 1024 == 1023 {
        return Job::FREE;
    }
    if g == 4035 {
        return Job::FREE;
    }
    uneven_slot(g - g / 1024 + 1023)
}

fn transposed(g: u16) -> u16
    requires { g < SLOTS }
{
    if g % 64 == 63 {
        return Job::FREE;
    }
    if g / 64 == 63 {
        return g;
    }
    g % 64 * 64 + g / 64
}

fn spread(g: u16) -> u16
    requires { g < SLOTS }
{
    if g % 64 == 63 {
        return Job::FREE;
    }
    let v = g % 64 * 64 + g / 64;
    v + v / 63
}

fn swapped(g: u16) -> u16
    requires { g < SLOTS }
{
    if g == 1023 {
        return Job::FREE;
    }
    if g == 1022 {
        return g;
    }
    if g % 2 == 0 {
        return g + 1;
    }
    g - 1
}

// Byte `k` of the card bound for slot `d`; zero where there is no card.
pub fn byte_of(d: u16, k: usize) -> u8 {
    if d == Job::FREE {
        return 0;
    }
    if k == 1 {
        return (d / 251 % 251) as u8;
    }
    ((d as usize + k % 251) % 251) as u8
}

// What a byte of a slot is at the start: old bytes where the slot is free.
fn dealt_byte(d: u16, k: usize) -> u8 {
    if d == Job::FREE {
        return 255;
    }
    byte_of(d, k)
}

impl Deal {
    // Where the card in slot `g` goes; the spares are free.
    pub fn destination(self, g: usize) -> u16 {
        if Job::MAX_SLOTS <= g {
            return Job::FREE;
        }
        let s = g as u16;
        match self {
            Deal::Even => even(s),
            Deal::Uneven => uneven(s),
            Deal::Transposed => transposed(s),
            Deal::Spread => spread(s),
            Deal::Swapped => swapped(s),
        }
    }

    pub fn places(self, places: &mut [u16]) {
        for (g, entry) in places.iter_mut().enumerate() {
            *entry = self.destination(g);
        }
    }

    // The card in each slot has the bytes of its destination.
    pub fn cards(self, b: usize, cards: &mut [u8])
        requires { 0 < b }
    {
        for (at, x) in cards.iter_mut().enumerate() {
            *x = dealt_byte(self.destination(at / b), at % b);
        }
    }
}
