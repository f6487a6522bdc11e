// Rule 4: the headers of a file, and its track IDs.
#![tactic(auto)]

pub mod forms;
pub mod identities;
