// The text of a run, written into a lent buffer.
#![tactic(auto)]

pub mod parts;
