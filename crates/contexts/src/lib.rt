#![tactic(auto)]

// A rule that is refused for its empty box matches nowhere, and contexts of accepted rules fit some text. No code.
