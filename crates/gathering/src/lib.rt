// The phases of a run: until nothing is awaited, logged and paid for.
#![tactic(auto)]

pub mod parts;
