// Which files a bundle needs: the language list, the guessing file, the rule files of each language, the common ones, and what
// rule files include.
use crate::taken::{MOST, Over, Taken};
use crate::words;
use program_io::Bytes;
use rules_parser::{Clause, FileKind, Item};

// Where the files of a type are, and what their names begin with.
#[derive(Clone, Copy)]
pub struct Folder<'a> {
    pub rt: &'a HostRuntime,
    pub dir: &'a [u8],
    pub prefix: &'a [u8],
}

// Where the line behind p's begins.
fn behind(s: &[u8], p: usize) -> usize {
    if p < s.len() {
        return p + program_io::length_before(&s[p..], b'\n') + 1;
    }
    p
}

// What the line at p names, no bytes where it names nothing; and where the next line begins. What is no line is passed over: loading
// refuses it, with its number.
fn read_line(kind: FileKind, s: &[u8], p: usize) -> (&[u8], usize) {
    match rules_parser::read_item(kind, s, p) {
        Item::Passed { lines: _, next } => (b"", next),
        Item::Tells { told, next } => match told {
            Clause::Name { name } | Clause::Include { name } => (rules_parser::part(s, name), next),
            Clause::Rule { .. } | Clause::Guess { .. } => (b"", next),
        },
        Item::Wrong => (b"", behind(s, p)),
    }
}

impl Folder<'_> {
    // Takes a type's file of a kind, and of a language where the kind has one.
    fn take_typed(self, kind: &[u8], language: &[u8], taken: &mut Taken) -> Result<(), Over> {
        let mut name = Bytes::<256>::new();
        name.push(self.prefix);
        name.push(kind);
        name.push(language);
        taken.take(self.rt, self.dir, name.as_slice())
    }

    // Takes the three rule files of a language.
    fn take_language(self, language: &[u8], taken: &mut Taken) -> Result<(), Over> {
        self.take_typed(b"_rules_", language, taken)?;
        self.take_typed(b"_approx_", language, taken)?;
        self.take_typed(b"_exact_", language, taken)
    }

    // Takes what a line of a file names: a language's files in the list, a file in a rule file.
    fn take_named(self, kind: FileKind, name: &[u8], taken: &mut Taken) -> Result<(), Over> {
        if name.is_empty() {
            return Ok(());
        }
        match kind {
            FileKind::Languages => self.take_language(name, taken),
            FileKind::Guesses => Ok(()),
            FileKind::Rules => taken.take(self.rt, self.dir, name),
        }
    }

    // Takes what the lines of file i name. The turns are counted, up to a number that no file uses up, since a proved loop ends.
    fn take_lines(self, kind: FileKind, i: usize, taken: &mut Taken) -> Result<(), Over> {
        let mut name = Bytes::<256>::new();
        let mut p = 0;
        for _ in 0..u64::MAX {
            let content = taken.content(i);
            if p >= content.len() {
                break;
            }
            let (named, next) = read_line(kind, content, p);
            name.clear();
            name.push(named);
            p = next;
            self.take_named(kind, name.as_slice(), taken)?;
        }
        Ok(())
    }

    // Takes what the files from file `from` on include, files taken for that among them.
    fn take_included(self, from: usize, taken: &mut Taken) -> Result<(), Over> {
        for i in from..MOST {
            if i >= taken.count() {
                break;
            }
            self.take_lines(FileKind::Rules, i, taken)?;
        }
        Ok(())
    }

    // Takes what the language list, file 0, needs. The guessing file stands before the rule files: it includes none.
    fn take_needed(self, taken: &mut Taken) -> Result<(), Over> {
        self.take_typed(b"_lang", b"", taken)?;
        let from = taken.count();
        self.take_lines(FileKind::Languages, 0, taken)?;
        self.take_typed(b"_approx_", b"common", taken)?;
        self.take_typed(b"_exact_", b"common", taken)?;
        self.take_included(from, taken)
    }

    // Takes all files that a bundle needs.
    pub fn take_all(self, taken: &mut Taken) -> Result<(), Over> {
        let listed = self.take_typed(b"_languages", b"", taken);
        if listed.is_err() || taken.count() == 0 {
            words::no_list(self.rt, self.dir);
            return Err(Over);
        }
        self.take_needed(taken)
    }
}
