// Bytes and big-endian numbers in lent parts: nothing here knows of files.
#![tactic(auto)]

pub mod lend;
pub mod number;
pub mod pen;
pub mod test;
