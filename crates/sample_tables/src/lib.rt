// The sample tables of a track: `stts`, `stsc`, `stsz` and `stco`, each as the bytes of its payload.
#![tactic(auto)]

pub mod agree;
pub mod chunk;
pub mod run;
pub mod size;
pub mod table;
pub mod time;
