// The walk by chunk with ticks.
#![tactic(auto)]

mod clock;
pub mod walk;
