// What the writer writes is read back: laws alone, no code.
#![tactic(auto)]
