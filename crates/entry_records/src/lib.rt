// The record reader and writer: single `samr`, `sawb` and `s263` entries by their fields.
#![tactic(auto)]

pub mod field;
pub mod record;
pub mod text;
