// The hierarchy of a chart: which states lie below which, which are orthogonal, and what can be wrong with it.
#![tactic(auto)]

pub mod fault;
