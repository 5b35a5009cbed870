// What the program reads and writes: the words of an input (input), the lines of a report (lines).
#![tactic(auto)]

pub mod input;
pub mod lines;
