// The fields of a record by their names, for the program `tidy`: told, and changed.
#![tactic(auto)]

mod change;
mod field;
pub mod record;
mod told;
