// The theorems over the whole library stand in proofs/: no code of its own.
#![tactic(auto)]
