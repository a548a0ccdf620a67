// Spans of slots: the entries that lie in a range, counted, and their slots put into pairs.
#![tactic(auto)]

pub mod parts;
