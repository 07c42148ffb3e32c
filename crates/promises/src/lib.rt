#![tactic(auto)]

// For each public function: its promise allows one result and one content of each lent buffer. No code.
