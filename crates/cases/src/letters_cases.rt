// The cases of the crate letters.
use crate::said::{Said, Word};
use std::cmp::Ordering;

// `decode HEX`: the code points, or where the first ill-formed sequence starts.
pub(crate) fn decode(a: &[u8]) -> Said {
    match letters::first_ill(a) {
        Some(p) => Said::Count(Word::Ill, p),
        None => Said::Codes(a),
    }
}

// `outside HEX`: the first place outside the range of names, or `-`.
pub(crate) fn outside(a: &[u8]) -> Said {
    match letters::first_outside(a) {
        Some(p) => Said::Count(Word::Plain, p),
        None => Said::Word(Word::Dash),
    }
}

// `lower HEX`: its lower case.
pub(crate) fn lower(a: &[u8], made: &mut [u8]) -> Said<'static> {
    match lower_case::lower_into(a, made) {
        Some(k) => Said::Line([None; 3], k),
        None => Said::Word(Word::NoCase),
    }
}

// `order HEX HEX`: how the first stands to the second.
pub(crate) fn order(o: Ordering) -> Said<'static> {
    Said::Word(match o {
        Ordering::Less => Word::Less,
        Ordering::Equal => Word::Equal,
        Ordering::Greater => Word::Greater,
    })
}
