// What the programs share: arguments, whole files, bytes put together, and the word that something went wrong.
#![tactic(auto)]

mod arguments;
mod bytes;
mod files;
mod words;

pub use arguments::{LONGEST, argument_count, decimal, name_type_at, number_at, with_argument};
pub use bytes::{Bytes, length_before, zeros};
pub use files::{Broken, fill, read_file, write_file};
pub use words::{explain, failed, mark, refused, say};
