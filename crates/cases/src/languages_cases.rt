// The cases of the crate languages.
use crate::said::{Said, Word};
use languages::LanguageSet;

// The set of a number that was left by narrowing: Any, or the languages below the bit of Some.
fn set_of_code(code: u64) -> LanguageSet {
    if code == languages::coded(LanguageSet::Any) {
        return LanguageSet::Any;
    }
    LanguageSet::SomeLanguages((code % 4294967296) as u32)
}

// `narrow SET SET`: what is left of the first, narrowed by the second, or `nothing`.
pub(crate) fn narrow(a: LanguageSet, b: LanguageSet) -> Said<'static> {
    match languages::narrow_codes(languages::coded(a), languages::coded(b)) {
        Some(code) => Said::set(set_of_code(code), Word::Some),
        None => Said::Word(Word::Nothing),
    }
}

// `single SET`: its one language, or `-`.
pub(crate) fn single(s: LanguageSet) -> Said<'static> {
    match s.single() {
        Some(n) => Said::Count(Word::Plain, n as usize),
        None => Said::Word(Word::Dash),
    }
}

// `listed HEX HEX`: the bit of the second, a name, in the first, a list of names, or `-`.
pub(crate) fn listed(names: &[u8], name: &[u8]) -> Said<'static> {
    match languages::find_language(names, name) {
        Some(bit) => Said::Count(Word::Plain, bit as usize),
        None => Said::Word(Word::Dash),
    }
}

// `subtract BITS BITS`: the first without the second.
pub(crate) fn subtract(a: u32, b: u32) -> Said<'static> {
    Said::Count(Word::Plain, languages::subtract(a, b) as usize)
}
