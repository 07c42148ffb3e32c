// What the program ask needs that no crate above pack has: lines of standard input, the cases in them, what the lower
// crates say of a case, and the line that says it.
#![tactic(auto)]

mod case;
mod command;
mod fields;
mod input;
mod languages_cases;
mod lending;
mod letters_cases;
mod output;
mod packs_cases;
mod rules_cases;
mod said;

pub use case::{Case, GIVEN, read};
pub use command::Command;
pub use input::{Input, LINE};
pub use lending::lent;
pub use output::Output;
pub use said::{Said, Word};
