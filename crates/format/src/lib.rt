// Texts of `key=value` lines: bytes, numbers, lists of elements, and how a line is read. Nothing here knows of charts.
#![tactic(auto)]

pub mod bytes;
pub mod element;
pub mod fault;
pub mod line;
pub mod number;
pub mod value;
