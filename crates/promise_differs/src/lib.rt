// In what an edited file differs from the file it was made of: laws and definitions, no code of its own.
#![tactic(auto)]
