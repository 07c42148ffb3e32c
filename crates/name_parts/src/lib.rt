// A name cut up and put together (engine.rs): its words, and the texts that are spelled in its place.
#![tactic(auto)]

pub mod joining;
pub mod words;

pub use joining::{join_prefix, join_words, replace_hyphens};
pub use words::{next_word, one_word, past_word};
