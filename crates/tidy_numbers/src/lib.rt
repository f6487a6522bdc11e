// The numbers among the arguments of the program `tidy`.
#![tactic(auto)]

pub mod parse;
