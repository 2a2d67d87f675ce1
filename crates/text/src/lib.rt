// The bytes that the two programs print, and how their input is read and cut.
#![tactic(auto)]

pub mod cutting;
pub mod fitting;
mod growing;
mod lines;
pub mod reading;
pub mod solving;
mod steps;
