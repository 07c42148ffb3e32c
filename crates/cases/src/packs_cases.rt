// The cases of the crate pack.
use crate::said::{Said, Word};
use pack::{Checked, Surveyed};

// `check`: 0, or 5 with the place.
pub(crate) fn check(kept: &[u8]) -> Said<'static> {
    match pack::check_pack(kept) {
        Checked::Accepted => Said::Count(Word::Plain, 0),
        Checked::Refused(place) => Said::Count(Word::Five, place),
    }
}

// `guess NAME`: the languages that a pack guesses for a name, or 5 with the place.
pub(crate) fn guess(kept: &[u8], name: &[u8]) -> Said<'static> {
    let mut table = [[0usize; rule_index::COLUMNS]; rule_index::ROWS];
    match rule_index::index(kept, &mut table, false) {
        Surveyed::Accepted { languages, guesses } => {
            let set = rule_index::guess_languages(kept, &table, guesses, languages, name);
            Said::set(set, Word::Guessed)
        }
        Surveyed::Refused(place) => Said::Count(Word::Five, place),
    }
}

// `pack HEX`, `bundle HEX`: kept for the lines that follow, unless it is too long.
pub(crate) fn say_if_too_long(a: &[u8]) -> Said<'static> {
    if a.len() <= 98304 {
        return Said::Nothing;
    }
    Said::Word(Word::NoCase)
}
