// Where the bytes of samples stand: rule 8.
#![tactic(auto)]

pub mod chunks;
mod index;
pub mod payload;
