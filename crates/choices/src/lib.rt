// Step 7 on lists, and the choices behind the spellings (demand 3). No code.

#![tactic(auto)]
