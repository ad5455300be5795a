// Sound charts: drawings that keep every rule, by their type.
#![tactic(auto)]

pub mod check;
mod none;
pub mod question;
pub mod sound_chart;
