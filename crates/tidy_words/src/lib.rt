// What the program `tidy` says, and the words that it knows.
#![tactic(auto)]

pub mod argument;
pub mod help;
pub mod line;
pub mod tell;
pub mod word;
