// Whether a guessing pattern matches a name.
ghost use Rattle.std.specs.Prelude.{◌≡◌, drop};
ghost use Rattle.letters.specs.Reading.{codes_of};
ghost use Rattle.letters.specs.Utf8.{decode_at};
ghost use Rattle.lang.specs.InnerContracts.{begins_with_other};
ghost use Rattle.lang.specs.Patterns.{box_piece, char_piece, piece_at, pattern_pieces, takes, fits_at, fits_anywhere, matches_of};

use crate::pieces::{inside_of, middle_of, piece_len};
use letters::Step;

// Whether the box with this inside takes the character.
#[tactic(auto, using(crate::proofs::Fits::takes_laws))]
fn box_takes(inside: &[u8], k: u32) -> bool
    ensures { result ≡ takes (box_piece inside.now) k }
{
    let listed = texts::has_char(texts::without_caret(inside), k);
    if texts::first_is(inside, b'^') {
        !listed
    } else {
        listed
    }
}

// Whether the character at the front of l is k.
#[tactic(auto, using(crate::proofs::Fits::takes_laws))]
fn char_takes(l: &[u8], k: u32) -> bool
    ensures { result ≡ takes (char_piece (decode_at l.now 0)) k }
{
    match letters::decode(l, 0) {
        Step::Char { code, .. } => code == k,
        Step::Ill | Step::End => false,
    }
}

// Whether the piece at the front of l takes the character.
#[tactic(auto, using(crate::proofs::Fits::takes_laws))]
fn piece_takes(l: &[u8], k: u32) -> bool
    ensures { result ≡ takes (piece_at l.now) k }
{
    if texts::first_is(l, b'[') {
        box_takes(inside_of(&l[1..]), k)
    } else {
        char_takes(l, k)
    }
}

// Whether the pieces of t fit the name from the place `from` on, up to its end where `end`.
#[tactic(auto, using(crate::proofs::Fits::fitting_laws))]
fn fits_at(t: &[u8], end: bool, name: &[u8], from: usize) -> bool
    ensures { result ≡ fits_at (pattern_pieces t.now) end (codes_of (drop from name.now)) }
{
    let mut rest = t;
    let mut at = from;
    // Stays a loop by hand: a turn reads a character of one to four bytes, or passes a byte that begins none.
    loop {
        match letters::decode(name, at) {
            Step::Char { code, len } => {
                if rest.is_empty() {
                    return !end;
                }
                if !piece_takes(rest, code) {
                    return false;
                }
                rest = &rest[piece_len(rest)..];
                at += len;
            }
            Step::Ill => at += 1,
            Step::End => return rest.is_empty(),
        }
    }
}

// Whether t begins with a character that is not b, where b is one by itself.
#[tactic(auto, unfolding(crate::specs::InnerContracts::begins_with_other, base::specs::Pick::pick))]
fn begins_with_other(t: &[u8], b: u8) -> bool
    ensures { result ≡ begins_with_other t.now b }
{
    !t.is_empty() && t[0] != b'[' && t[0] != b && b.is_ascii()
}

// The same as `fits_at`, and most places are passed by their first byte.
#[tactic(auto, using(crate::proofs::Shortcuts::place_passed))]
fn fits_from(t: &[u8], end: bool, name: &[u8], from: usize) -> bool
    ensures { result ≡ fits_at (pattern_pieces t.now) end (codes_of (drop from name.now)) }
{
    if from < name.len() && begins_with_other(t, name[from]) {
        return false;
    }
    fits_at(t, end, name, from)
}

// Whether the pieces of t fit the name from some place on.
#[tactic(auto, using(crate::proofs::Fits::trying_laws))]
fn fits_anywhere(t: &[u8], end: bool, name: &[u8]) -> bool
    ensures { result ≡ fits_anywhere (pattern_pieces t.now) end (codes_of name.now) }
{
    let mut at: usize = 0;
    // Stays a loop by hand, as in `fits_at`; the end of the name is a place too.
    loop {
        if fits_from(t, end, name, at) {
            return true;
        }
        match letters::decode(name, at) {
            Step::Char { len, .. } => at += len,
            Step::Ill => at += 1,
            Step::End => return false,
        }
    }
}

// Whether the pattern matches the name anywhere that its anchors permit. It is not checked again here: any bytes are pieces.
#[tactic(auto, using(crate::proofs::Fits::match_laws))]
pub fn matches(p: &[u8], name: &[u8]) -> bool
    ensures { result ≡ matches_of p.now name.now }
{
    let end = texts::last_is(p, b'$');
    let t = middle_of(p);
    if texts::first_is(p, b'^') {
        fits_at(t, end, name, 0)
    } else {
        fits_anywhere(t, end, name)
    }
}
