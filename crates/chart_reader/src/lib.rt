// Chart texts read: what stands on each line, row by row, into a drawing.
#![tactic(auto)]

mod field;
pub mod reader;
mod row;
