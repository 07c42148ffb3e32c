// The cases of the crate phoneme_builder.
use cases::{Case, Said, Word};
use languages::LanguageSet;
use pack::Surveyed;
use phoneme_builder::{Plan, Worded};
use rule_index::Table;

// A set by its kind and bits.
fn set_of(kind: u32, bits: u32) -> LanguageSet {
    match kind {
        0 => LanguageSet::Any,
        1 => LanguageSet::NoLanguages,
        _ => LanguageSet::SomeLanguages(bits),
    }
}

// Whether a pack of so many languages has these lists.
fn are_listed(by: Plan, languages: usize) -> bool {
    languages <= 32
        && [by.main, by.common, by.own]
            .iter()
            .all(|list| *list < 3 * languages + 2)
}

// A word spelled by lists of a table, where there is room for its answer.
fn spelled(kept: &[u8], table: &Table, by: Plan, word: &[u8], made: &mut [u8]) -> Said<'static> {
    if 256 < by.limit {
        return Said::Word(Word::NoCase);
    }
    let mut store = [[0u8; 32768]; 4];
    let mut slots = [[0u64; 256]; 4];
    match phoneme_builder::word(&mut store, &mut slots, kept, table, by, word, made, 0) {
        Worded::Done { length, flag } if length <= made.len() => {
            Said::Line([Some(0), Some(usize::from(flag)), None], length)
        }
        Worded::Done { .. } => Said::Word(Word::NoCase),
        Worded::TooLong => Said::Count(Word::Plain, 7),
        Worded::TooMany => Said::Count(Word::Plain, 8),
    }
}

// `word MAIN COMMON LAST LIMIT KIND BITS WORD`: a word spelled from the lists of these numbers.
pub fn word(case: Case, made: &mut [u8], kept: &[u8]) -> Said<'static> {
    let mut table = [[0usize; rule_index::COLUMNS]; rule_index::ROWS];
    match rule_index::index(kept, &mut table, true) {
        Surveyed::Accepted { languages, guesses } => {
            let by = Plan {
                main: case.number(0) as usize,
                common: case.number(1) as usize,
                own: case.number(2) as usize,
                limit: case.number(3) as usize,
                guesses,
                set: set_of(case.number(4), case.number(5)),
            };
            if are_listed(by, languages) {
                return spelled(kept, &table, by, case.bytes(6), made);
            }
            Said::Word(Word::NoCase)
        }
        Surveyed::Refused(place) => Said::Count(Word::Five, place),
    }
}
