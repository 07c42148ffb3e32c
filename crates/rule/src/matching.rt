// What a rule's string may hold, and whether a rule matches at a place of a text.
ghost use Rattle.std.specs.Prelude.{◌≡◌};
ghost use Rattle.std.specs.List.{list_all};
ghost use Rattle.rule.specs.Matching.{plain_code, rule_text, first_code, rule_matches};
ghost use Rattle.rule.specs.InnerContracts.{visible, visible_literal};

use letters::Step;

// Whether a rule's string may hold the code point: no control, no double quote.
#[tactic(auto, unfolding(crate::specs::Matching::plain_code, base::specs::Pick::pick))]
fn may_hold(code: u32) -> bool
    ensures { result ≡ plain_code code }
{
    !matches!(code, 0..=0x1F | 0x22 | 0x7F)
}

// Whether b is a character from `#` to `~` other than `but`.
#[tactic(auto, unfolding(crate::specs::InnerContracts::visible, base::specs::Pick::pick))]
fn is_visible(b: u8, but: u8) -> bool
    ensures { result ≡ visible but b }
{
    matches!(b, b'#'..=b'~') && b != but
}

// Whether s holds only such characters.
fn all_visible(s: &[u8], but: u8) -> bool
    ensures { result ≡ list_all (visible but) s.now }
{
    s.iter().all(|&b| is_visible(b, but))
}

// Whether s is a text that a rule or guessing line may hold, read character by character.
#[tactic(auto, using(crate::proofs::MatchLaws::plain_laws))]
fn reads_as_text(s: &[u8]) -> bool
    ensures { result ≡ rule_text s.now }
{
    let mut p: usize = 0;
    while let Step::Char { code, len } = letters::decode(s, p) {
        if !may_hold(code) {
            return false;
        }
        p += len;
    }
    p == s.len()
}

// Whether s is a text that a rule or guessing line may hold (12 otherwise). Most are known by their bytes.
#[tactic(auto, using(crate::proofs::Visible::literal_laws))]
pub fn is_rule_text(s: &[u8]) -> bool
    ensures { result ≡ rule_text s.now }
{
    all_visible(s, 0) || reads_as_text(s)
}

// Whether s holds only characters from `#` to `~` and no `[`: then it is a rule text with nothing to be read closer.
#[tactic(auto, using(crate::proofs::Visible::literal_laws))]
pub fn is_visible_literal(s: &[u8]) -> bool
    ensures { result ≡ visible_literal s.now }
{
    all_visible(s, b'[')
}

// The first character of a pattern, and 0 where there is none.
#[tactic(auto, unfolding(crate::specs::Matching::first_code, crate::specs::Matching::code_in))]
pub fn first_code(s: &[u8]) -> u32
    ensures { result ≡ first_code s.now }
{
    match letters::decode(s, 0) {
        Step::Char { code, .. } => code,
        Step::Ill | Step::End => 0,
    }
}

// Whether a rule of this pattern, left and right context matches at a place of text.
#[tactic(auto, using(crate::proofs::MatchLaws::match_laws), unfolding(crate::specs::Matching::rule_matches, base::specs::Pick::pick, base::specs::Pick::and))]
pub fn rule_matches(pattern: &[u8], left: &[u8], right: &[u8], text: &[u8], at: usize) -> bool
    ensures { result ≡ rule_matches pattern.now left.now right.now text.now at }
{
    let Some((before, rest)) = text.split_at_checked(at) else {
        return false;
    };
    texts::starts_with(rest, pattern)
        && regex_optim::right_fits(right, &rest[pattern.len()..])
        && regex_optim::left_fits(left, before)
}
