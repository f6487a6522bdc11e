// The words of `tidy` that make a file of another one, and the record of an entry, told or changed.
#![tactic(auto)]

pub mod edit;
pub mod record;
pub mod rescue;
