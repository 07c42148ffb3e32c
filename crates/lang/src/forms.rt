// Which guessing patterns are within the forms.
ghost use Rattle.std.specs.Prelude.{◌≡◌};
ghost use Rattle.letters.specs.Utf8.{decode_at};
ghost use Rattle.lang.specs.Patterns.{blankless, framed, char_piece, piece_at, pattern_pieces, listed_box, good_piece, all_good, in_forms};

use crate::pieces::{inside_of, may_stand_in_box, middle_of, piece_len, stands_for_itself};
use letters::Step;

// Whether l is one or more characters that a box may hold.
#[tactic(auto, using(crate::proofs::FormLaws::listing_laws))]
fn is_listed(l: &[u8]) -> bool
    ensures { result ≡ listed_box l.now }
{
    let mut p: usize = 0;
    while let Step::Char { code, len } = letters::decode(l, p) {
        if !may_stand_in_box(code) {
            return false;
        }
        p += len;
    }
    !l.is_empty() && p == l.len()
}

// Whether the character at the front of l is plain.
#[tactic(auto, using(crate::proofs::FormLaws::good_laws))]
fn is_good_char(l: &[u8]) -> bool
    ensures { result ≡ good_piece (char_piece (decode_at l.now 0)) }
{
    match letters::decode(l, 0) {
        Step::Char { code, .. } => stands_for_itself(code),
        Step::Ill | Step::End => false,
    }
}

// Whether the piece at the front of l is within the forms.
#[tactic(auto, using(crate::proofs::FormLaws::good_laws))]
fn is_good(l: &[u8]) -> bool
    ensures { result ≡ good_piece (piece_at l.now) }
{
    if texts::first_is(l, b'[') {
        is_listed(texts::without_caret(inside_of(&l[1..])))
    } else {
        is_good_char(l)
    }
}

// Whether each piece of t is within the forms.
#[tactic(auto, using(crate::proofs::FormLaws::passing_laws))]
fn all_good(t: &[u8]) -> bool
    ensures { result ≡ all_good (pattern_pieces t.now) }
{
    let mut rest = t;
    while !rest.is_empty() {
        if !is_good(rest) {
            return false;
        }
        rest = &rest[piece_len(rest)..];
    }
    true
}

// Whether p holds neither space nor tab.
#[tactic(auto, using(crate::proofs::FormLaws::blank_laws), unfolding(crate::specs::Patterns::blankless, base::specs::Pick::and))]
fn is_blankless(p: &[u8]) -> bool
    ensures { result ≡ blankless p.now }
{
    !p.contains(&b' ') && !p.contains(&b'\t')
}

// Whether p has 1 to 255 bytes, begins with neither `/` nor `#` and holds no blank.
#[tactic(auto, unfolding(crate::specs::Patterns::framed, base::specs::Pick::and))]
fn is_framed(p: &[u8]) -> bool
    ensures { result ≡ framed p.now }
{
    matches!(p.len(), 1..=255)
        && !texts::first_is(p, b'/')
        && !texts::first_is(p, b'#')
        && is_blankless(p)
}

// Whether the pattern is within the forms.
#[tactic(auto, unfolding(crate::specs::Patterns::in_forms, base::specs::Pick::and))]
pub fn check_pattern(p: &[u8]) -> bool
    ensures { result ≡ in_forms p.now }
{
    is_framed(p) && all_good(middle_of(p))
}
