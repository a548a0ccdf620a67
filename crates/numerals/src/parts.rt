// One numeral of a file, and a numeral between two limits.
ghost use Rattle.std.specs.Prelude.{◌≡◌, ◌<◌, ◌≤◌, IfErr};
ghost use Rattle.answers.specs.Answers.{refusal_of};
ghost use Rattle.numerals.specs.Numeral.{numeral, last_group, got_of};
ghost use Rattle.numerals.specs.parts.Bounds.{ranged, place_with};

use crate::Numeral;
use answers::Refusal;

// The numeral at a position of the file: groups of seven bits, lowest first, at most three. 20 at once where the third has its top bit
// set, whatever follows it.
pub fn next_numeral(file: &[u8], at: usize) -> Result<Numeral, Refusal>
    ensures { got_of result ≡ numeral file.now at }
{
    let mut value: usize = 0;
    let mut weight: usize = 1;
    let mut next = at;
    for _ in 0..3usize {
        if file.len() <= next {
            return Err(Refusal::FileEnds);
        }
        let x = file[next] as usize;
        next += 1;
        if x < 128 {
            return last_group(value, weight, x, next);
        }
        value += (x - 128) * weight;
        weight *= 128;
    }
    Err(Refusal::FileGroups)
}

// The last group of a numeral: 14 where it is 0 and not the only one.
fn last_group(value: usize, weight: usize, x: usize, next: usize) -> Result<Numeral, Refusal>
    requires { (x < 128) × (weight ≤ 16384) × (value < weight) }
    ensures { got_of result ≡ last_group value weight x next }
{
    if x == 0 && weight != 1 {
        return Err(Refusal::FileForm);
    }
    Ok(Numeral {
        value: value + x * weight,
        next,
    })
}

// The numeral at a position of the file, refused as given where it is below `low` or above `high`.
pub fn bounded_numeral(
    file: &[u8],
    at: usize,
    low: usize,
    high: usize,
    refusal: Refusal,
) -> Result<Numeral, Refusal>
    ensures number { got_of result ≡ ranged low high (refusal_of refusal).number file.now at }
    ensures place { IfErr result (λ e. (refusal_of e).place ≡ place_with (refusal_of refusal) (refusal_of e).number) }
{
    let got = next_numeral(file, at)?;
    if got.value < low || high < got.value {
        return Err(refusal);
    }
    Ok(got)
}
