// The pack: checked once, and read by places.
#![tactic(auto)]

mod guessing;
mod rows;
mod rules;
mod sections;

pub use guessing::{GuessAt, guess_at, listed_mask};
pub use rows::{COLUMNS, KINDS, NUMBERS, Row, note_rule};
pub use rules::{RuleAt, rule_at, rule_count};
pub use sections::{Checked, Surveyed, check_pack, survey};
