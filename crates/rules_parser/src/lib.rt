// The lines of rule files, guessing files and language lists ("Rule files and includes"; the Rust's rules_parser.rs).
#![tactic(auto)]

mod fields;
mod files;
mod known;
mod lines;

pub use fields::{Text, part};
pub use files::{Item, read_item};
pub use known::{Strings, rule_strings};
pub use lines::{Clause, FileKind};
