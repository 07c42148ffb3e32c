// What one line is, by the kind of its file.
ghost use Rattle.std.specs.Prelude.{◌≡◌};
ghost use Rattle.rules_parser.specs.Lines.{text_at, rule_told, guess_told, accept_told, name_told, four_at, include_at, rule_at, guess_at, name_at, told_at, line_at};

use crate::fields::Text;

// What a file is read for.
#[derive(Clone, Copy)]
pub enum FileKind {
    Languages,
    Guesses,
    Rules,
}

// What a line says: the four strings of a rule, an include's file name, a guessing rule, a language name.
#[derive(Clone, Copy)]
pub enum Clause {
    Rule {
        pattern: Text,
        left: Text,
        right: Text,
        expression: Text,
    },
    Include {
        name: Text,
    },
    Guess {
        pattern: Text,
        names: Text,
        accept: bool,
    },
    Name {
        name: Text,
    },
}

// What a line is: blank, a comment, the opening of one, or what it says.
#[derive(Clone, Copy)]
pub(crate) enum Line {
    Blank,
    Comment,
    Opens,
    Tells(Clause),
}

// Whether a field is a text that a rule or guessing line may hold.
#[tactic(auto, using(crate::proofs::LineLaws::texts))]
fn text_good(s: &[u8], text: Text) -> bool
    ensures { result ≡ text_at s.now text }
{
    rule::is_rule_text(crate::fields::part(s, text))
}

// A rule of four fields, where each is a text.
#[tactic(auto, using(base::proofs::PickLaws::cases, base::proofs::PickLaws::pick_no, base::proofs::PickLaws::and_second, base::proofs::PickLaws::yes_by, base::proofs::PickLaws::no_by), unfolding(crate::specs::Lines::rule_told))]
fn rule_told(s: &[u8], pattern: Text, left: Text, right: Text, expression: Text) -> Option<Clause>
    ensures { result ≡ rule_told s.now pattern left right expression }
{
    if text_good(s, pattern)
        && text_good(s, left)
        && text_good(s, right)
        && text_good(s, expression)
    {
        Some(Clause::Rule {
            pattern,
            left,
            right,
            expression,
        })
    } else {
        None
    }
}

// Four quoted strings from p on.
#[tactic(auto, using(crate::proofs::LineLaws::in_order, base::proofs::PickLaws::cases), unfolding(crate::specs::Lines::four_at, crate::specs::Lines::last_two))]
fn four(s: &[u8], p: usize) -> Option<Clause>
    ensures { result ≡ four_at s.now p }
{
    let pattern = crate::fields::quoted_at(s, p)?;
    let left = crate::fields::next_quoted(s, pattern.next)?;
    let right = crate::fields::next_quoted(s, left.next)?;
    let expression = crate::fields::next_quoted(s, right.next)?;
    if crate::fields::tail(s, expression.next) {
        rule_told(s, pattern.text, left.text, right.text, expression.text)
    } else {
        None
    }
}

// Blanks and a file name from p on.
#[tactic(auto, using(crate::proofs::LineLaws::in_order, base::proofs::PickLaws::cases), unfolding(crate::specs::Lines::include_at))]
fn include(s: &[u8], p: usize) -> Option<Clause>
    ensures { result ≡ include_at s.now p }
{
    let name = crate::fields::next_word(s, p)?;
    if crate::fields::ends(s, name.next) {
        Some(Clause::Include { name: name.text })
    } else {
        None
    }
}

// A rule or an include.
#[tactic(auto, using(crate::proofs::LineLaws::rule_steps))]
fn rule_line(s: &[u8], p: usize) -> Option<Clause>
    ensures { result ≡ rule_at s.now p }
{
    let n = s.len();
    if n <= p {
        return None;
    }
    if texts::starts_with(&s[p..n], b"#include") {
        include(s, p + 8)
    } else {
        four(s, p)
    }
}

// A guessing rule whose accept field is given, where the others are texts.
#[tactic(auto, using(base::proofs::PickLaws::cases), unfolding(crate::specs::Lines::guess_told))]
fn guess_told(s: &[u8], pattern: Text, names: Text, accept: bool) -> Option<Clause>
    ensures { result ≡ guess_told s.now pattern names accept }
{
    if text_good(s, pattern) && text_good(s, names) {
        Some(Clause::Guess {
            pattern,
            names,
            accept,
        })
    } else {
        None
    }
}

// A guessing rule of three fields.
#[tactic(auto, using(crate::proofs::LineLaws::texts))]
fn accept_told(s: &[u8], pattern: Text, names: Text, accept: Text) -> Option<Clause>
    ensures { result ≡ accept_told s.now pattern names accept }
{
    if letters::same(crate::fields::part(s, accept), b"true") {
        guess_told(s, pattern, names, true)
    } else if letters::same(crate::fields::part(s, accept), b"false") {
        guess_told(s, pattern, names, false)
    } else {
        None
    }
}

// Pattern, names and `true` or `false` from p on.
#[tactic(auto, using(crate::proofs::LineLaws::in_order, base::proofs::PickLaws::cases), unfolding(crate::specs::Lines::guess_at, crate::specs::Lines::guess_end))]
fn guess_line(s: &[u8], p: usize) -> Option<Clause>
    ensures { result ≡ guess_at s.now p }
{
    let pattern = crate::fields::word_at(s, p)?;
    let names = crate::fields::next_word(s, pattern.next)?;
    let accept = crate::fields::next_word(s, names.next)?;
    if crate::fields::ends(s, accept.next) {
        accept_told(s, pattern.text, names.text, accept.text)
    } else {
        None
    }
}

// A language name, where it is one.
#[tactic(auto, using(crate::proofs::LineLaws::texts))]
fn name_told(s: &[u8], name: Text) -> Option<Clause>
    ensures { result ≡ name_told s.now name }
{
    if languages::is_language_name(crate::fields::part(s, name)) {
        Some(Clause::Name { name })
    } else {
        None
    }
}

// One name from p on.
#[tactic(auto, using(crate::proofs::LineLaws::in_order, base::proofs::PickLaws::cases), unfolding(crate::specs::Lines::name_at))]
fn name_line(s: &[u8], p: usize) -> Option<Clause>
    ensures { result ≡ name_at s.now p }
{
    let name = crate::fields::word_at(s, p)?;
    if crate::fields::ends(s, name.next) {
        name_told(s, name.text)
    } else {
        None
    }
}

// The line whose first text, no comment, stands at p.
#[tactic(auto, using(crate::proofs::LineLaws::any_line))]
fn told_line(kind: FileKind, s: &[u8], p: usize) -> Option<Clause>
    ensures { result ≡ told_at kind s.now p }
{
    match kind {
        FileKind::Languages => name_line(s, p),
        FileKind::Guesses => guess_line(s, p),
        FileKind::Rules => rule_line(s, p),
    }
}

// The line from p to the end of s.
#[tactic(auto, using(crate::proofs::LineLaws::any_line))]
pub(crate) fn read_line(kind: FileKind, s: &[u8], p: usize) -> Option<Line>
    ensures { result ≡ line_at kind s.now p }
{
    let q = crate::fields::skip_blanks(s, p);
    if s.len() <= q {
        Some(Line::Blank)
    } else if crate::fields::pair(s, q, b'/', b'/') {
        Some(Line::Comment)
    } else if crate::fields::pair(s, q, b'/', b'*') {
        Some(Line::Opens)
    } else {
        Some(Line::Tells(told_line(kind, s, q)?))
    }
}
