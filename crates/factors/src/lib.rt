// Factors: the shifts and cycles of a table, and the walk through one.
#![tactic(auto)]

pub mod parts;
