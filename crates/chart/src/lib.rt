// What a chart is: automata under states, and the transitions between them.
#![tactic(auto)]

mod blank;
pub mod drawing;
pub mod element;
pub mod id;
pub mod name;
