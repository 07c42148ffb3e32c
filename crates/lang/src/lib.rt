// Guessing patterns (01, Guessing lines): which are within the forms, and whether one matches a name.
#![tactic(auto)]

mod forms;
mod matching;
mod pairs;
mod pieces;
mod signatures;

pub use forms::check_pattern;
pub use matching::matches;
pub use pairs::{find_pairs, required_pairs};
pub use signatures::required_bits;
