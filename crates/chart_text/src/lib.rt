// Chart texts: how a chart is written, and how it is read.
#![tactic(auto)]

pub mod count;
pub mod line;
