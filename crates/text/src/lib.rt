// The text layer of the program: a line read as a command, and an answer written as a line.

#![tactic(auto)]

pub mod reading;
pub mod writing;
