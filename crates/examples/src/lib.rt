#![tactic(auto)]

// The worked examples of document 01, as one table with one proof. No code.
