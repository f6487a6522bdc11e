// The kinds of sample entry, and the heads of entries: written, and told from other bytes.
#![tactic(auto)]

pub mod head;
pub mod kind;
pub mod put;
