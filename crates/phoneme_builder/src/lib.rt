// The sets of texts of engine.rs and the passes over a word: `PhonemeBuilder`, `RulesApplication` and `apply_final_rule`.
#![tactic(auto)]

mod append;
mod apply;
mod expressions;
mod finals;
mod pass;
mod set;
mod slots;
mod unite;
mod way;
mod words;

pub use set::{Slots, Store};
pub use words::{Plan, Worded, word};
