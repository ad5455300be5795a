// The tree of a drawing, worked out once in tables of sets.
#![tactic(auto)]

pub mod outline;
mod regions;
mod table;
pub mod tree;
