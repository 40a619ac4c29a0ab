// A line of the bench sheet: how it is read, and how what it expects and what came are shown.
#![tactic(auto)]

pub mod line;
pub mod results;
pub mod show;
