// Lower case of names.
#![tactic(auto)]

mod lower_case;
mod table;

pub use lower_case::{lower, lower_into};
