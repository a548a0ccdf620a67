// Words and numbers, written into a lent buffer.
ghost use Rattle.std.specs.Prelude.{◌≡◌, [], ◌∷◌, ◌<◌};
ghost use Rattle.counting.specs.Lists.{join, each};
ghost use Rattle.texts.specs.Text.{digit, decimal, hex};
ghost use Rattle.texts.specs.parts.Writing.{Reaches, Wrote};

// A word, byte by byte.
pub fn put_text(out: &mut [u8], at: usize, word: &[u8]) -> usize
    requires { Reaches word.now at out.old }
    ensures { Wrote word.now out.old at out.new result }
{
    racks::parts::put(out, at, word);
    at + word.len()
}

// One byte.
pub fn put_byte(out: &mut [u8], at: usize, x: u8) -> usize
    requires { Reaches (x ∷ []) at out.old }
    ensures { Wrote (x ∷ []) out.old at out.new result }
{
    out[at] = x;
    at + 1
}

// A digit: 0 to 9, then a to f.
fn digit_of(d: u8) -> u8
    requires { d < 16 }
    ensures { result ≡ digit d }
{
    if d < 10 {
        return 48 + d;
    }
    87 + d
}

// A number in decimal: what stands before its last digit, and then that.
pub fn put_decimal(out: &mut [u8], at: usize, x: usize) -> usize
    requires { Reaches (decimal x) at out.old }
    ensures { Wrote (decimal x) out.old at out.new result }
{
    if x < 10 {
        return put_byte(out, at, digit_of(x as u8));
    }
    let next = put_decimal(out, at, x / 10);
    put_byte(out, next, digit_of((x % 10) as u8))
}

// A byte in hexadecimal.
pub fn put_hex(out: &mut [u8], at: usize, x: u8) -> usize
    requires { Reaches (hex x) at out.old }
    ensures { Wrote (hex x) out.old at out.new result }
{
    let next = put_byte(out, at, digit_of(x / 16));
    put_byte(out, next, digit_of(x % 16))
}

// Bytes in hexadecimal, with nothing between them.
pub fn put_hexes(out: &mut [u8], at: usize, bytes: &[u8]) -> usize
    requires { Reaches (join (each hex bytes.now)) at out.old }
    ensures { Wrote (join (each hex bytes.now)) out.old at out.new result }
{
    let mut next = at;
    for x in bytes {
        next = put_hex(out, next, *x);
    }
    next
}
