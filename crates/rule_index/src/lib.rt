// The table of a pack's rules: built, the first rule that matches at a place, and the languages that a name is guessed to have. Nobody
// else knows its layout.
#![tactic(auto)]

mod guessing;
mod indexing;
mod matching;
mod numbers;
mod rows;

pub use guessing::guess_languages;
pub use indexing::index;
pub use matching::{Matched, first_match};
pub use rows::{COLUMNS, ROWS, Table};
