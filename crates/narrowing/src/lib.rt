#![tactic(auto)]

// Which order languages are narrowed in (request 12): the laws of narrowing and merging, and what moving a rule can change. No code.
