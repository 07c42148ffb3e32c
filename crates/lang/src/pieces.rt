// The pieces of a guessing pattern (01, Guessing lines): what stands between its anchors, a piece at the front and its bytes.
ghost use Rattle.std.specs.Prelude.{◌≡◌};
ghost use Rattle.letters.specs.Utf8.{decode_at};
ghost use Rattle.lang.specs.Patterns.{plain, box_plain, middle, inside_of, box_length, char_length, length_at};

use letters::Step;

// Whether the character is none of `\ . + * ? ( ) | [ ] { } ^ $`.
#[tactic(auto, using(crate::proofs::Signs::sign_laws))]
pub(crate) fn stands_for_itself(code: u32) -> bool
    ensures { result ≡ plain code }
{
    !matches!(code, 0x24 | 0x28..=0x2B | 0x2E | 0x3F | 0x5B..=0x5E | 0x7B..=0x7D)
}

// Whether a box may hold the character: none of `- & ~` either.
#[tactic(auto, using(crate::proofs::Signs::sign_laws))]
pub(crate) fn may_stand_in_box(code: u32) -> bool
    ensures { result ≡ box_plain code }
{
    match code {
        0x26 | 0x2D | 0x7E => false,
        _ => stands_for_itself(code),
    }
}

// What stands between the anchors of p.
#[tactic(auto, using(crate::proofs::PieceLaws::middle_by))]
pub(crate) fn middle_of(p: &[u8]) -> &[u8]
    ensures { result.now ≡ middle p.now }
{
    texts::without_dollar(texts::without_caret(p))
}

// The inside of a box, from behind its `[`: up to the first `]`, and empty where there is none.
#[tactic(auto, using(crate::proofs::PieceLaws::box_laws))]
pub(crate) fn inside_of(t: &[u8]) -> &[u8]
    ensures { result.now ≡ inside_of t.now }
{
    let i = texts::find_byte(t, b']');
    if i < t.len() { &t[..i] } else { &t[..0] }
}

// The bytes of a box, from behind its `[`: all that is left where it is not closed.
#[tactic(auto, using(crate::proofs::PieceLaws::box_laws))]
fn box_len(t: &[u8]) -> usize
    ensures { result ≡ box_length t.now }
{
    let i = texts::find_byte(t, b']');
    if i < t.len() { i + 1 } else { i }
}

// The bytes of the character at the front of l.
#[tactic(auto, using(crate::proofs::PieceLaws::front_laws))]
fn char_len(l: &[u8]) -> usize
    ensures { result ≡ char_length (decode_at l.now 0) }
{
    match letters::decode(l, 0) {
        Step::Char { len, .. } => len,
        Step::Ill => 1,
        Step::End => 0,
    }
}

// The bytes of the piece at the front of l.
#[tactic(auto, using(crate::proofs::PieceLaws::front_laws))]
pub(crate) fn piece_len(l: &[u8]) -> usize
    ensures { result ≡ length_at l.now }
{
    if texts::first_is(l, b'[') {
        1 + box_len(&l[1..])
    } else {
        char_len(l)
    }
}
