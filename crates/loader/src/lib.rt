// Loading: from the bytes of a bundle to those of a pack.
#![tactic(auto)]

mod guesses;
mod language_list;
mod loading;

pub use loading::{Loaded, load};
