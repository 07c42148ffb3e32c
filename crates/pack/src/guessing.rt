// Guessing rules: where one stands, and the section checked.
ghost use Rattle.std.specs.Prelude.{◌≡◌, ◌≤◌, min, length, drop};
ghost use Rattle.strings.specs.Reading.{read_many};
ghost use Rattle.pack.specs.Packs.{guess, read_guess, read_guesses, guess_good, guesses_good};
ghost use Rattle.pack.specs.Guessing.{all_listed};
ghost use Rattle.pack.specs.InnerContracts.{end_in, guess_stands_at, guesses_from};

use strings::{Number, Span};

// A guessing rule, its pattern by where it stands; the next one stands where the pattern ends.
#[derive(Clone, Copy)]
pub struct GuessAt {
    pub accept: u32,
    pub mask: u32,
    pub pattern: Span,
}

// The guessing rule at a place, of any bytes; none where they run out.
#[tactic(auto, using(crate::proofs::GuessLaws::guess_at_laws))]
pub fn guess_at(pack: &[u8], at: usize) -> Option<GuessAt>
    ensures { result ≡ guess_stands_at pack.now at }
{
    if pack.len() <= at {
        return None;
    }
    let Number { value: mask, next } = strings::mask_at(pack, at + 1)?;
    let pattern = strings::string_at(pack, next)?;
    Some(GuessAt {
        accept: strings::byte_at(pack, at),
        mask,
        pattern,
    })
}

// The bits of the listed languages, at most 32.
#[tactic(auto, using(crate::proofs::GuessLaws::listed_laws))]
pub fn listed_mask(languages: usize) -> u32
    ensures { result ≡ all_listed (min 32 languages) }
{
    if 32 <= languages {
        0xFFFFFFFF
    } else {
        (1u32 << languages as u32) - 1
    }
}

// Whether a guessing rule of these parts keeps the rules: "accept byte 0 or 1, mask (4 bytes, not zero, listed bits only), pattern".
#[tactic(auto, using(crate::proofs::GuessLaws::guess_test_laws))]
fn guess_good(accept: u32, mask: u32, languages: usize, pattern: &[u8]) -> bool
    requires { languages ≤ 32 }
    ensures { result ≡ guess_good languages (guess accept mask pattern.now) }
{
    accept <= 1
        && mask != 0
        && mask <= listed_mask(languages)
        && rule::is_rule_text(pattern)
        && lang::check_pattern(pattern)
}

// Where the guessing rule at a place ends.
#[tactic(auto, using(crate::proofs::GuessLaws::next_guess_laws))]
fn next_guess(pack: &[u8], at: usize, languages: usize) -> Option<usize>
    requires { languages ≤ 32 }
    ensures { result ≡ end_in pack.now (guess_good languages) (read_guess (drop at pack.now)) }
{
    let guess = guess_at(pack, at)?;
    let Span { start, end } = guess.pattern;
    guess_good(guess.accept, guess.mask, languages, &pack[start..end]).then_some(end)
}

// Where `count` guessing rules end.
#[tactic(auto, using(crate::proofs::GuessLaws::guessing_laws))]
fn guesses_from(pack: &[u8], start: usize, count: u32, languages: usize) -> Option<usize>
    requires { (languages ≤ 32) × (start ≤ length pack.now) }
    ensures { result ≡ end_in pack.now (guesses_from languages) (read_many read_guess count (drop start pack.now)) }
{
    let mut at = start;
    for _ in 0..count {
        at = next_guess(pack, at, languages)?;
    }
    Some(at)
}

// Where the guessing section at a place ends; at most 4,096 rules.
#[tactic(auto, using(crate::proofs::GuessLaws::guesses_laws))]
pub(crate) fn guess_section(pack: &[u8], at: usize, languages: usize) -> Option<usize>
    requires { languages ≤ 32 }
    ensures { result ≡ end_in pack.now (guesses_good languages) (read_guesses (drop at pack.now)) }
{
    let Number { value: count, next } = strings::count_at(pack, at)?;
    if count <= 4096 {
        guesses_from(pack, next, count, languages)
    } else {
        None
    }
}
