// The files of the program `tidy`: read whole, and written whole or not at all, over none that exists; and their times.
#![tactic(auto)]

pub mod input;
pub mod name;
pub mod output;
pub mod time;
