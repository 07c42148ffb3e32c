// What is said of a line, and the line that says it.
use crate::output::Output;
use languages::LanguageSet;
use letters::Step;
use phonemes::Alternative;
use std::fmt;

// The words that lines begin with.
#[derive(Clone, Copy)]
pub enum Word {
    Plain,
    NoCase,
    Dash,
    Less,
    Equal,
    Greater,
    Any,
    None,
    Some,
    Guessed,
    Ill,
    Five,
    AllStrings,
    IsEmpty,
    Equals,
    Starts,
    Ends,
    EqualsChar,
    StartsChar,
    EndsChar,
    Nothing,
}

impl fmt::Display for Word {
    fn fmt<W: fmt::Write>(&self, f: &mut fmt::Formatter<W>) -> fmt::Result {
        f.write_str(match self {
            Word::Plain => "",
            Word::NoCase => "?",
            Word::Dash => "-",
            Word::Less => "less",
            Word::Equal => "equal",
            Word::Greater => "greater",
            Word::Any => "any",
            Word::None => "none",
            Word::Some => "some:",
            Word::Guessed => "some ",
            Word::Ill => "ill ",
            Word::Five => "5 ",
            Word::AllStrings => "AllStringsMatcher ",
            Word::IsEmpty => "IsEmpty ",
            Word::Equals => "Equals ",
            Word::Starts => "StartsWith ",
            Word::Ends => "EndsWith ",
            Word::EqualsChar => "EqualsChar ",
            Word::StartsChar => "StartsWithChar ",
            Word::EndsChar => "EndsWithChar ",
            Word::Nothing => "nothing",
        })
    }
}

// No line; a word; a word and a number; up to three numbers and so many bytes of `made`; the code points of a text; so many
// alternatives of an expression, by the names of its languages.
#[derive(Clone, Copy)]
pub enum Said<'a> {
    Nothing,
    Word(Word),
    Count(Word, usize),
    Line([Option<usize>; 3], usize),
    Codes(&'a [u8]),
    Alternatives(usize, &'a [u8], &'a [u8]),
}

impl Said<'_> {
    // Whether something is so, as 1 or 0.
    pub(crate) fn flag(is: bool) -> Self {
        Said::Count(Word::Plain, usize::from(is))
    }

    // A set: `some` is the word of one with some languages.
    pub(crate) fn set(s: LanguageSet, some: Word) -> Self {
        match s {
            LanguageSet::Any => Said::Word(Word::Any),
            LanguageSet::NoLanguages => Said::Word(Word::None),
            LanguageSet::SomeLanguages(bits) => Said::Count(some, bits as usize),
        }
    }
}

impl Output<'_> {
    // Puts bytes in hex, and `-` for none.
    fn put_bytes(&mut self, s: &[u8]) {
        if s.is_empty() {
            self.put("-");
        }
        for b in s {
            self.put_hex(*b);
        }
    }

    // Puts each code point of s.
    fn put_codes(&mut self, s: &[u8]) {
        self.put("text");
        let mut p = 0;
        while let Step::Char { code, len } = letters::decode(s, p) {
            self.put(" ");
            self.put_number(code as usize);
            p += len;
        }
    }

    // Puts numbers, each with a blank behind it, and bytes.
    fn put_line(&mut self, numbers: [Option<usize>; 3], s: &[u8]) {
        for n in numbers {
            if let Some(n) = n {
                self.put_number(n);
                self.put(" ");
            }
        }
        self.put_bytes(s);
    }

    // Puts a set of languages.
    fn put_set(&mut self, set: LanguageSet) {
        match set {
            LanguageSet::Any => self.put("any"),
            LanguageSet::NoLanguages => self.put("none"),
            LanguageSet::SomeLanguages(bits) => {
                self.put("some:");
                self.put_number(bits as usize);
            }
        }
    }

    // Puts the first n alternatives of an expression.
    fn put_alternatives(&mut self, n: usize, e: &[u8], names: &[u8]) {
        self.put("ok");
        let mut from = 0;
        for _ in 0..n {
            let Alternative::At {
                start,
                end,
                set,
                next,
            } = phonemes::alternative(e, names, from)
            else {
                return;
            };
            self.put(" ");
            self.put_bytes(e.get(start..end).unwrap_or(b""));
            self.put(":");
            self.put_set(set);
            from = next;
        }
    }

    // Puts what is said, less the end of its line.
    fn put_said(&mut self, said: Said, made: &[u8]) {
        match said {
            Said::Nothing => {}
            Said::Word(word) => self.put(word),
            Said::Count(word, n) => {
                self.put(word);
                self.put_number(n);
            }
            Said::Line(numbers, n) => self.put_line(numbers, made.get(..n).unwrap_or(b"")),
            Said::Codes(s) => self.put_codes(s),
            Said::Alternatives(n, e, names) => self.put_alternatives(n, e, names),
        }
    }

    // Puts the line of what is said, where it has one.
    pub fn say(&mut self, said: Said, made: &[u8]) {
        let before = self.len();
        self.put_said(said, made);
        if self.len() != before {
            self.put("\n");
        }
    }
}
