// Demand 3 and the flag, for the passes over a word. No code.

#![tactic(auto)]
