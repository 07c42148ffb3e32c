// Phoneme expressions (rule.rs): which are well formed, and their alternatives.
#![tactic(auto)]

mod answers;
mod phonemes;

pub use answers::{Alternative, ExpressionFault};
pub use phonemes::{alternative, check_expression, names_mask};
