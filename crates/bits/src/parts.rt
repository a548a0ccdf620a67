// What the layers above share: the bits of a word, and a set of numbers below 4,096 as bits.
ghost use Rattle.std.specs.Prelude.{◌≡◌, ◌≤◌, ◌<◌, length};
ghost use Rattle.bits.specs.parts.Bits as defined;
ghost use Rattle.bits.specs.parts.Bits.{NUMBERS, bit_on, turned_on, turned_off, included, filled, cleared, Topped, NextOn, Walking, Onward, WalkedOn};

// The words of a set: one for each 64 numbers below 4,096, one with a bit for each of those that is not empty, and one more, which is its user's.
pub const WORDS: usize = 66;

// Where the word stands that has a bit for each word that is not empty.
pub const TOP: usize = 64;

// The words of the code are those of the definitions.
pub fn words_agree()
    ensures words { defined.WORDS ≡ WORDS }
    ensures top { defined.TOP ≡ TOP }
{}

// The first bit of a word from bit s up that is on; 64 where none is.
pub fn next_on(word: u64, s: usize) -> usize
    requires { s ≤ 64 }
    ensures { NextOn (bit_on word) s 64 result }
{
    if s == 64 {
        return 64;
    }
    let rest = word >> s;
    if rest == 0 {
        return 64;
    }
    s + rest.trailing_zeros() as usize
}

// A word with bit b on.
pub fn turn_on(word: u64, b: usize) -> u64
    requires { b < 64 }
    ensures { result ≡ turned_on word b }
{
    word | (1 << b)
}

// A word with bit b off.
pub fn turn_off(word: u64, b: usize) -> u64
    requires { b < 64 }
    ensures { result ≡ turned_off word b }
{
    word & !(1 << b)
}

// Number g into the set.
pub fn mark(words: &mut [u64; WORDS], g: usize)
    requires { (length words.old ≡ defined.WORDS) × (g < NUMBERS) }
    ensures { words.new ≡ included words.old g }
{
    let w = g / 64;
    words[w] = turn_on(words[w], g % 64);
    words[TOP] = turn_on(words[TOP], w);
}

// A word of numbers into the set, where it had none.
pub fn fill_word(words: &mut [u64; WORDS], w: usize, word: u64)
    requires { (length words.old ≡ defined.WORDS) × (w < 64) }
    ensures { words.new ≡ filled words.old w word }
{
    words[w] = word;
    if word != 0 {
        words[TOP] = turn_on(words[TOP], w);
    }
}

// Number g out of the set.
pub fn clear(words: &mut [u64; WORDS], g: usize)
    requires { (length words.old ≡ defined.WORDS) × (g < NUMBERS) }
    ensures { words.new ≡ cleared words.old g }
{
    let w = g / 64;
    let word = turn_off(words[w], g % 64);
    words[w] = word;
    if word == 0 {
        words[TOP] = turn_off(words[TOP], w);
    }
}

// A walk over the set, word by word: bit k of what is left of a word is number at + k.
#[derive(Clone, Copy)]
pub struct Walk {
    pub at: usize,
    pub rest: u64,
}

// A walk starts at any number, with what its word has from there up.
pub fn walk_from(words: &[u64; WORDS], low: usize) -> u64
    requires { (low ≤ NUMBERS) × Topped words.now }
    ensures { Walking words.now low low result }
{
    words[low / 64] >> (low % 64)
}

// A walk goes on: where nothing of the word is left, to the next that has a bit on. There is one.
pub fn walk_on(words: &[u64; WORDS], at: usize, rest: u64) -> Walk
    requires { (at ≤ NUMBERS) × Onward words.now at rest × Topped words.now }
    ensures { WalkedOn words.now at rest result.at result.rest }
{
    if rest != 0 {
        return Walk { at, rest };
    }
    let v = next_on(words[TOP], at / 64 + 1);
    Walk {
        at: v * 64,
        rest: words[v],
    }
}
