// Why a part of a bundle is not loaded.
use refusals::Refusal;

// The refusal, its line, and the file's number in the bundle; 0 and 0 where it has no line.
#[derive(Clone, Copy)]
pub struct Refused {
    pub why: Refusal,
    pub line: usize,
    pub file: usize,
}
