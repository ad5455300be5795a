// Containers of fixed room: nothing here asks for a heap.
#![tactic(auto)]

pub mod array_vec;
