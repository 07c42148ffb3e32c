// The bytes that may stand beside a place where a context fits, as bits of their kinds: where the bit of one is lacking, the context does
// not fit (BesideLaws).
ghost use Rattle.std.specs.Prelude.{◌≡◌};
ghost use Rattle.regex_optim.specs.InnerContracts.{box_bits, rest_bits, left_bits, right_bits};

use crate::boxes::box_inner;

// The bits of all kinds of byte.
pub const ALL_BITS: u64 = u64::MAX;

// The bits of a box with this inside: of all bytes of its characters, or, where it is negated, of all that there are.
#[tactic(auto, using(crate::proofs::BesideLaws::beside_laws), unfolding(crate::specs::InnerContracts::box_bits))]
fn box_bits(inner: &[u8]) -> u64
    ensures { result ≡ box_bits inner.now }
{
    if texts::first_is(inner, b'^') {
        ALL_BITS
    } else {
        texts::signature(inner)
    }
}

// The bits of the rest t of a context; as a literal it has the byte b beside the place.
#[tactic(auto, using(crate::proofs::BesideLaws::beside_laws), unfolding(crate::specs::InnerContracts::rest_bits))]
fn rest_bits(t: &[u8], b: u8) -> u64
    ensures { result ≡ rest_bits t.now b }
{
    if texts::first_is(t, b'[') {
        box_bits(box_inner(t))
    } else {
        texts::bit_of(b)
    }
}

// The bits of the bytes that a text may end with where a left context fits it; no byte counts as 0.
#[tactic(auto, using(crate::proofs::BesideLaws::beside_laws), unfolding(crate::specs::InnerContracts::left_bits))]
pub fn left_bits(context: &[u8]) -> u64
    ensures { result ≡ left_bits context.now }
{
    if context.is_empty() {
        return ALL_BITS;
    }
    let t = texts::without_caret(context);
    rest_bits(t, texts::last_byte(t))
}

// The bits of the bytes that a text may begin with where a right context fits it; no byte counts as 0.
#[tactic(auto, using(crate::proofs::BesideLaws::beside_laws), unfolding(crate::specs::InnerContracts::right_bits))]
pub fn right_bits(context: &[u8]) -> u64
    ensures { result ≡ right_bits context.now }
{
    if context.is_empty() {
        return ALL_BITS;
    }
    let t = texts::without_dollar(context);
    rest_bits(t, texts::first_byte(t))
}
