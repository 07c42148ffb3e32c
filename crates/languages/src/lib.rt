// Language sets and language names (`languages.rs`).
#![tactic(auto)]

mod names;
mod sets;

pub use names::{find_language, is_language_name};
pub use sets::{LanguageSet, coded, merge_codes, narrow_codes, subtract};
