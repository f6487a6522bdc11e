// Boxes of a lent part: walking over them, finding them, and rewriting their bodies.
#![tactic(auto)]

pub mod containers;
pub mod seek;
pub mod walk;
pub mod way;
pub mod words;
