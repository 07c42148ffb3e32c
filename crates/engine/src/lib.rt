// Spelling a name (engine.rs): every check, the name's parts, and its answer; one name, or a block of lines.
#![tactic(auto)]

mod call;
mod encode;
mod lines;
mod spelling;

pub use call::{Settings, Start};
pub use lines::{Lines, spell_lines};
pub use spelling::{Spelled, spell};
