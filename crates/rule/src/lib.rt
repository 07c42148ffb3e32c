// The leaves of rule.rs: what a rule may hold, and whether it matches at a place.
#![tactic(auto)]

mod matching;

pub use matching::{first_code, is_rule_text, is_visible_literal, rule_matches};
