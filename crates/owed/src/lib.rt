// What racks owe and await: flat tables of 64 by 64 counts.
#![tactic(auto)]

pub mod parts;
