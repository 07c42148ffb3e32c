// Contexts: the eight forms of regex_optim.rs, whether a context fits the text before or after a place, and which bytes may stand there.
#![tactic(auto)]

mod beside;
mod boxes;
mod characters;
mod fitting;
mod forms;

pub use beside::{ALL_BITS, left_bits, right_bits};
pub use fitting::{left_fits, right_fits};
pub use forms::{left_form, left_is_empty_box, right_form, right_is_empty_box};

// The forms of a context, named as in regex_optim.rs.
#[derive(Clone, Copy)]
pub enum OptimizedRegex {
    AllStringsMatcher,
    IsEmpty,
    Equals,
    StartsWith,
    EndsWith,
    EqualsChar,
    StartsWithChar,
    EndsWithChar,
}
