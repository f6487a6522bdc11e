// What every edit keeps of a file: laws and definitions, no code of its own.
#![tactic(auto)]
