// What is written back from what was read: laws, no code of its own.
#![tactic(auto)]
