// The range of names.
ghost use Rattle.std.specs.Prelude.{◌≡◌};
ghost use Rattle.letters.specs.Reading.{in_range, first_outside};

use crate::utf8::{Step, decode};

// Whether a name may hold the code point.
#[tactic(auto, using(base::proofs::PickLaws::cases), unfolding(crate::specs::Reading::in_range, crate::specs::Utf8::within))]
pub fn in_range(code: u32) -> bool
    ensures { result ≡ in_range code }
{
    matches!(code, 0x20..=0x7E | 0xA1..=0x12F | 0x131..=0x17F)
}

// The first place of s at which no character of the range stands; none where all are of the range.
// Stays a loop by hand: how far a step goes is what `decode` read there.
#[tactic(auto, using(crate::proofs::ReadingLaws::outside_laws))]
pub fn first_outside(s: &[u8]) -> Option<usize>
    ensures { result ≡ first_outside s.now }
{
    let mut p: usize = 0;
    loop {
        match decode(s, p) {
            Step::Char { code, len } => {
                if in_range(code) {
                    p += len;
                } else {
                    return Some(p);
                }
            }
            Step::Ill => {
                return Some(p);
            }
            Step::End => {
                return None;
            }
        }
    }
}
