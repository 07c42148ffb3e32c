// The bits that a pattern requires of a name's signature, by which most patterns that do not match are passed over.
ghost use Rattle.std.specs.Prelude.{◌≡◌, false};
ghost use Rattle.lang.specs.InnerContracts.{bits_in, required_of};

use crate::pieces::{middle_of, piece_len};

// The bits of the bytes of t that are outside its boxes.
#[tactic(auto, using(crate::proofs::Shortcuts::requiring_laws))]
fn bits_in(t: &[u8]) -> u64
    ensures { result ≡ bits_in false t.now }
{
    let mut rest = t;
    let mut bits: u64 = 0;
    while let [first, ..] = rest {
        if *first == b'[' {
            rest = &rest[piece_len(rest)..];
        } else {
            bits |= texts::bit_of(*first);
            rest = &rest[1..];
        }
    }
    bits
}

// The bits that a pattern requires: where a name's signature has not all of them, `matches` is false (Shortcuts: `lacking_not`).
#[tactic(auto, using(crate::proofs::Shortcuts::requiring_laws))]
pub fn required_bits(p: &[u8]) -> u64
    ensures { result ≡ required_of p.now }
{
    bits_in(middle_of(p))
}
