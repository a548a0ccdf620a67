// Bits: a set of slots as words of 64 bits, with the next one of it in a few steps wherever it lies.
#![tactic(auto)]

pub mod parts;
