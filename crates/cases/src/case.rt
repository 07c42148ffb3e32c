// A case: what a line asks for, and what the crates below say of it.
use crate::command::Command;
use crate::fields::Field;
use crate::said::{Said, Word};
use crate::{fields, languages_cases, letters_cases, packs_cases, rules_cases};
use languages::LanguageSet;
use program_io::Bytes;

// How many bytes the fields of a line can give.
pub const GIVEN: usize = 100000;

#[derive(Clone, Copy)]
pub struct Case<'a> {
    pub command: Command,
    fields: [Field; 8],
    given: &'a [u8],
}

// Reads a line, where it is a case: a word, and a field of each kind that goes with it. `given` takes the bytes of its fields.
pub fn read<'a>(line: &[u8], given: &'a mut Bytes<GIVEN>) -> Option<Case<'a>> {
    given.clear();
    let mut texts = line.split(|b| *b == b' ').filter(|text| !text.is_empty());
    let command = Command::of(texts.next()?)?;
    let mut fields = [Field::Number(0); 8];
    for (field, kind) in fields.iter_mut().zip(command.kinds()) {
        *field = fields::told(*kind, texts.next()?, given)?;
    }
    if texts.next().is_some() {
        return None;
    }
    Some(Case {
        command,
        fields,
        given: given.as_slice(),
    })
}

impl<'a> Case<'a> {
    // The bytes of field i, counted from 0.
    pub fn bytes(&self, i: usize) -> &'a [u8] {
        match self.fields.get(i) {
            Some(Field::Bytes { start, end }) => self.given.get(*start..*end).unwrap_or(b""),
            _ => b"",
        }
    }

    // The number of field i.
    pub fn number(&self, i: usize) -> u32 {
        match self.fields.get(i) {
            Some(Field::Number(n)) => *n,
            _ => 0,
        }
    }

    // The set of field i.
    fn set(&self, i: usize) -> LanguageSet {
        match self.fields.get(i) {
            Some(Field::Set(set)) => *set,
            _ => LanguageSet::Any,
        }
    }

    // What the crates below say of the case.
    pub fn said(&self, made: &mut [u8], kept: &[u8]) -> Said<'a> {
        let a = self.bytes(0);
        let b = self.bytes(1);
        match self.command {
            Command::Decode => letters_cases::decode(a),
            Command::Outside => letters_cases::outside(a),
            Command::Lower => letters_cases::lower(a, made),
            Command::Name => Said::flag(languages::is_language_name(a)),
            Command::Guess => packs_cases::guess(kept, a),
            Command::Pack | Command::Bundle => packs_cases::say_if_too_long(a),
            Command::Order => letters_cases::order(letters::compare(a, b)),
            Command::Same => Said::flag(letters::same(a, b)),
            Command::Listed => languages_cases::listed(a, b),
            Command::Left => rules_cases::form(
                regex_optim::left_form(a),
                regex_optim::left_fits(a, b),
            ),
            Command::Right => rules_cases::form(
                regex_optim::right_form(a),
                regex_optim::right_fits(a, b),
            ),
            Command::Expr => rules_cases::expression(a, b),
            Command::Guessing => rules_cases::guessing(a, b),
            Command::Narrow => languages_cases::narrow(self.set(0), self.set(1)),
            Command::Merge => Said::set(self.set(0).merge(self.set(1)), Word::Some),
            Command::Singleton => Said::flag(self.set(0).is_singleton()),
            Command::Single => languages_cases::single(self.set(0)),
            Command::Subtract => languages_cases::subtract(self.number(0), self.number(1)),
            Command::Rule => rules_cases::matched(
                a,
                b,
                self.bytes(2),
                self.bytes(3),
                self.number(4) as usize,
            ),
            Command::Check => packs_cases::check(kept),
            Command::Word | Command::Spell | Command::Given | Command::Load | Command::Lines =>
                Said::Word(Word::NoCase),
        }
    }
}
