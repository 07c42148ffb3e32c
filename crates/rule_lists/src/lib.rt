// The lists of a pack, from the rule files of a bundle (the loading of rule.rs).
#![tactic(auto)]

mod lines;
mod list_writing;
mod lists;
mod numbers;
mod refused;
mod tables;
mod walk;

pub use list_writing::Written;
pub use lists::write_lists;
pub use refused::Refused;
