// What a file that is made of a dump is: laws and definitions, no code of its own.
#![tactic(auto)]
