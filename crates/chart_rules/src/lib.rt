// The rules on a drawing: the first that its automata break, and the first that its transitions break.
#![tactic(auto)]

pub mod automaton;
mod list;
pub mod transition;
