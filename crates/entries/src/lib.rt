// Entries: the numbers 5 and 6 of a table.
#![tactic(auto)]

pub mod parts;
