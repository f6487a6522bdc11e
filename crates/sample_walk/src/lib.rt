// The walk by sample.
#![tactic(auto)]

pub mod walk;
