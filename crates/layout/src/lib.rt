// Where the boxes of a file stand: one walk over a container finds all that is asked of it.
#![tactic(auto)]

pub mod entries;
pub mod every;
pub mod gather;
pub mod moov;
pub mod plain;
pub mod track;
pub mod tracks;
