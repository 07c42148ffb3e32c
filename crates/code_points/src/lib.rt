#![tactic(auto)]

// What stands in a set of texts is in the order of code points. No code.
