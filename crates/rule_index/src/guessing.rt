// Guessing the languages of a name by what the table has of the guessing rules: the bits and the pairs that each requires, and where it stands.
ghost use Rattle.std.specs.Prelude.{◌≡◌, ◌≤◌, ◌<◌, min, [], ◌∷◌, eqb, drop};
ghost use Rattle.std.specs.Int.Bits.{bit_and};
ghost use Rattle.base.specs.Pick.{pick};
ghost use Rattle.lang.specs.InnerContracts.{pairs_of};
ghost use Rattle.languages.specs.Sets.{without};
ghost use Rattle.texts.specs.Signatures.{signature_of};
ghost use Rattle.languages.specs.Numbers.{set_numbers};
ghost use Rattle.pack.specs.Packs.{guess, read_guess};
ghost use Rattle.pack.specs.PlaceContracts.{rule_count};
ghost use Rattle.pack.specs.Guessing.{narrowed_by, left_over};
ghost use Rattle.rule_index.specs.Rows.{required_row, put_all};
ghost use Rattle.rule_index.specs.GuessContracts.{narrowed_in, has_required, narrowed_noted, narrowed_by_first, guesser, PairsAsked, GuessesReady, GuessesNoted};

use crate::rows::{GUESSES, PAIRS, REQUIRED, Table, noted_at, put_at};
use languages::LanguageSet;
use pack::NUMBERS;
use strings::Span;

// The i-th guessing rule noted: what it requires, and its place.
#[tactic(auto, using(crate::proofs::CellLaws::put_laws))]
fn note_guess(table: &mut Table, i: usize, required: u64, pairs: u64, place: usize)
    requires { i < 4096 }
    ensures { table.new ≡ put_all table.old required_row i (required ∷ pairs ∷ place ∷ []) }
{
    put_at(table, REQUIRED, i, required as usize);
    put_at(table, PAIRS, i, pairs as usize);
    put_at(table, GUESSES, i, place);
}

// The pairs that are asked for a pattern: those that it requires where many names are guessed; for a single one they take longer to find
// than they save.
#[tactic(auto, using(crate::proofs::GuessLaws::asked_laws))]
fn pairs_asked(many: bool, pattern: &[u8]) -> u64
    ensures { PairsAsked pattern.now result }
{
    if many {
        lang::required_pairs(pattern)
    } else {
        0
    }
}

// The guessing rules of the section at a place noted in a table, with their pairs where many names are guessed.
#[tactic(auto, using(crate::proofs::GuessLaws::noting_laws))]
pub(crate) fn note_guesses(pack: &[u8], guesses: usize, table: &mut Table, many: bool)
    requires { GuessesReady pack.now guesses table.old }
    ensures { GuessesNoted pack.now guesses table.old table.new }
{
    let count = pack::rule_count(pack, guesses);
    let mut at = guesses + 2;
    for i in 0..count {
        let Some(guess) = pack::guess_at(pack, at) else {
            return;
        };
        let Span { start, end } = guess.pattern;
        let pattern = &pack[start..end];
        let pairs = pairs_asked(many, pattern);
        note_guess(table, i, lang::required_bits(pattern), pairs, at);
        at = end;
    }
}

// The languages of `left` that a guessing rule leaves where its pattern matches.
#[tactic(auto, using(base::proofs::PickLaws::cases))]
fn left_by(left: u32, accept: u32, mask: u32) -> u32
    ensures { result ≡ pick (eqb accept 0) (without left mask) (bit_and left mask) }
{
    if accept == 0 {
        languages::subtract(left, mask)
    } else {
        left & mask
    }
}

// The languages of `left` narrowed by a guessing rule, where its pattern matches; not tried where it would leave all of them.
#[tactic(auto, using(crate::proofs::GuessLaws::narrow_laws))]
fn narrow(left: u32, accept: u32, mask: u32, pattern: &[u8], name: &[u8]) -> u32
    ensures { result ≡ narrowed_by name.now (guess accept mask pattern.now) left }
{
    let less = left_by(left, accept, mask);
    if less != left && lang::matches(pattern, name) {
        less
    } else {
        left
    }
}

// The same by the guessing rule at a place; they stay as they are where bytes run out.
#[tactic(auto, using(crate::proofs::GuessLaws::narrow_at_laws))]
fn narrow_at(pack: &[u8], at: usize, left: u32, name: &[u8]) -> u32
    ensures { result ≡ narrowed_in name.now (read_guess (drop at pack.now)) left }
{
    match pack::guess_at(pack, at) {
        Some(guess) => {
            let pattern = &pack[guess.pattern.start..guess.pattern.end];
            narrow(left, guess.accept, guess.mask, pattern, name)
        }
        None => left,
    }
}

// Whether a signature and pairs have what the i-th guessing rule requires.
#[tactic(auto, using(crate::proofs::GuessLaws::noted_laws))]
fn has_required(table: &Table, i: usize, signature: u64, pairs: u64) -> bool
    requires { i < 4096 }
    ensures { result ≡ has_required table.now i signature pairs }
{
    texts::has_bits(signature, noted_at(table, REQUIRED, i) as u64)
        && texts::has_bits(pairs, noted_at(table, PAIRS, i) as u64)
}

// The same by the i-th guessing rule, for a name of this signature and these pairs: it is not read where they lack what it requires.
#[tactic(auto, using(crate::proofs::GuessLaws::noted_laws))]
fn narrow_noted(
    pack: &[u8],
    table: &Table,
    i: usize,
    left: u32,
    name: &[u8],
    signature: u64,
    pairs: u64,
) -> u32
    requires i_bound { i < 4096 }
    requires signature_value { (signature ≡ signature_of name.now) × (pairs ≡ pairs_of name.now) }
    ensures { result ≡ narrowed_noted pack.now table.now name.now i left }
{
    if has_required(table, i, signature, pairs) {
        narrow_at(pack, noted_at(table, GUESSES, i), left, name)
    } else {
        left
    }
}

// The same by the first `count` guessing rules.
#[tactic(auto, using(crate::proofs::GuessLaws::narrowing_laws))]
fn narrow_all(pack: &[u8], table: &Table, count: usize, all: u32, name: &[u8]) -> u32
    requires { count ≤ 4096 }
    ensures { result ≡ narrowed_by_first pack.now table.now name.now count all }
{
    let signature = texts::signature(name);
    let pairs = lang::find_pairs(name);
    let mut left = all;
    for i in 0..count {
        left = narrow_noted(pack, table, i, left, name, signature, pairs);
    }
    left
}

// How many guessing rules of the section at a place are noted.
fn noted_count(pack: &[u8], guesses: usize) -> usize
    ensures { result ≡ min 4096 (rule_count pack.now guesses) }
{
    pack::rule_count(pack, guesses).min(NUMBERS)
}

// The set of what is left; "nothing left means Any".
#[tactic(auto, using(base::proofs::PickLaws::cases), unfolding(pack::specs::Guessing::left_over))]
fn left_over(left: u32) -> LanguageSet
    ensures { result ≡ left_over left }
{
    if left == 0 {
        LanguageSet::Any
    } else {
        LanguageSet::SomeLanguages(left)
    }
}

// The languages that a lower-cased name is guessed to have, by the table and the guessing section at the place `guesses` of `pack`.
#[tactic(auto, using(crate::proofs::GuessLaws::guess_laws, languages::proofs::NumberLaws::set_told))]
pub fn guess_languages(
    pack: &[u8],
    table: &Table,
    guesses: usize,
    languages: usize,
    name: &[u8],
) -> LanguageSet
    ensures { set_numbers result ≡ set_numbers (guesser pack.now table.now guesses languages name.now) }
{
    let all = pack::listed_mask(languages);
    left_over(narrow_all(pack, table, noted_count(pack, guesses), all, name))
}
