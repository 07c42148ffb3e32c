// The pairs of characters that stand side by side in a name, its ends among them, and those that a pattern requires: by them patterns are passed over.
ghost use Rattle.std.specs.Prelude.{◌≡◌};
ghost use Rattle.lang.specs.InnerContracts.{pair_bit, pair_of, front_char, pairs_of, pairs_needed, pairs_required};
ghost use Rattle.lang.specs.Patterns.{pattern_pieces};

use crate::pieces::{middle_of, piece_len};
use letters::Step;

// The bit of a pair of characters.
#[tactic(auto, using(texts::proofs::SignatureLaws::bit_of_lem))]
fn pair_bit(x: u32, y: u32) -> u64
    ensures { result ≡ pair_bit x y }
{
    1 << ((u64::from(x) * 5 + u64::from(y)) % 64)
}

// The same where both are known, and no bit where one is not.
#[tactic(auto, unfolding(crate::specs::InnerContracts::pair_of))]
fn pair_of(x: Option<u32>, y: Option<u32>) -> u64
    ensures { result ≡ pair_of x y }
{
    match (x, y) {
        (Some(x), Some(y)) => pair_bit(x, y),
        _ => 0,
    }
}

// The pairs of a name: the bits of each two characters that stand side by side, with 0 before the first and behind the last.
#[tactic(auto, using(crate::proofs::PairLaws::pairing_laws))]
pub fn find_pairs(name: &[u8]) -> u64
    ensures { result ≡ pairs_of name.now }
{
    let mut prev: u32 = 0;
    let mut bits: u64 = 0;
    let mut at: usize = 0;
    // Stays a loop by hand: a turn reads a character of one to four bytes, or passes a byte that begins none.
    loop {
        match letters::decode(name, at) {
            Step::Char { code, len } => {
                bits |= pair_bit(prev, code);
                prev = code;
                at += len;
            }
            Step::Ill => at += 1,
            Step::End => return bits | pair_bit(prev, 0),
        }
    }
}

// The character that stands at the front of l as a piece; none where a box does.
#[tactic(auto, unfolding(crate::specs::InnerContracts::front_char, crate::specs::InnerContracts::code_in, base::specs::Pick::pick))]
fn front_char(l: &[u8]) -> Option<u32>
    ensures { result ≡ front_char l.now }
{
    if texts::first_is(l, b'[') {
        return None;
    }
    match letters::decode(l, 0) {
        Step::Char { code, .. } => Some(code),
        Step::Ill | Step::End => None,
    }
}

// The pairs that the pieces of t require, with the name's start before them where `start`, and its end behind them where `end`.
#[tactic(auto, using(crate::proofs::PairLaws::chaining_laws))]
fn pairs_in(t: &[u8], start: bool, end: bool) -> u64
    ensures { result ≡ pairs_needed start 0 end (pattern_pieces t.now) }
{
    let mut prev = start.then_some(0);
    let mut bits: u64 = 0;
    let mut rest = t;
    while !rest.is_empty() {
        let front = front_char(rest);
        bits |= pair_of(prev, front);
        prev = front;
        rest = &rest[piece_len(rest)..];
    }
    bits | pair_of(prev, end.then_some(0))
}

// The pairs that a pattern requires: where a name has not all of them, `matches` is false (PairLaws: `pairs_lacking_not`).
#[tactic(auto, using(crate::proofs::PairLaws::chaining_laws))]
pub fn required_pairs(p: &[u8]) -> u64
    ensures { result ≡ pairs_required p.now }
{
    pairs_in(
        middle_of(p),
        texts::first_is(p, b'^'),
        texts::last_is(p, b'$'),
    )
}
