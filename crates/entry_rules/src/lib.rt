// Sample entries: their decoder records, and rule 10.
#![tactic(auto)]

pub mod decoder;
pub mod entry;
