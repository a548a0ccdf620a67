// What the programs that run paper cards print.
#![tactic(auto)]

pub mod parts;
