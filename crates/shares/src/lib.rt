// Shares: the pairs of the plan that are a target's, counted for each target, and put into the lent list.
#![tactic(auto)]

pub mod parts;
