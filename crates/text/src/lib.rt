// What is printed: numbers in decimal, and lines.
#![tactic(auto)]

pub mod line;
