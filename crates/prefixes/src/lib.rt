// The prefixes of names (engine.rs), and which name is parted by one.
#![tactic(auto)]

pub mod prefixes;

pub use prefixes::{NameType, Prefix, is_prefix, prefix_of};
