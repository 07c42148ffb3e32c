// What is told of a phoneme expression and of one of its alternatives.
use languages::LanguageSet;

// What is wrong with an expression: it is not well formed (14), or a name in it is not listed (16).
#[derive(Clone, Copy, PartialEq, Eq, Debug)]
pub enum ExpressionFault {
    Malformed,
    UnlistedName,
}

// An alternative: its text is the expression's part from start to end, and the next one is asked for from place `next` on.
#[derive(Clone, Copy)]
pub enum Alternative {
    At {
        start: usize,
        end: usize,
        set: LanguageSet,
        next: usize,
    },
    Nothing,
}
