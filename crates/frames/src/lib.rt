// Frames of AMR and of wideband AMR in storage form: one at the front of a part, and the run of good ones.
#![tactic(auto)]

pub mod codec;
pub mod run;
