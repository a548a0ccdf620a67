// Numerals: a job file's numbers, in groups of seven bits.
#![tactic(auto)]

pub mod parts;

// A numeral of the file: its value and the position behind it.
#[derive(Clone, Copy)]
pub struct Numeral {
    pub value: usize,
    pub next: usize,
}
