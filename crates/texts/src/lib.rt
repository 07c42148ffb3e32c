// Parts of texts: what a text begins and ends with, where a byte or a character stands in it, and a text without its anchors.
#![tactic(auto)]

ghost use Rattle.std.specs.Prelude.{◌≡◌};
ghost use Rattle.letters.specs.Reading.{codes_of};
ghost use Rattle.texts.specs.Parts.{first_byte, last_byte, first_is, last_is, place_of, has, prefix_of, suffix_of, without_caret, without_dollar};

mod signatures;

use letters::Step;
pub use signatures::{bit_of, has_bits, signature};

// The first byte of s, and 0 where it has none.
pub fn first_byte(s: &[u8]) -> u8
    ensures { result ≡ first_byte s.now }
{
    s.first().copied().unwrap_or(0)
}

// The last byte of s, and 0 where it has none.
pub fn last_byte(s: &[u8]) -> u8
    ensures { result ≡ last_byte s.now }
{
    s.last().copied().unwrap_or(0)
}

// Whether the first byte of s is b.
#[tactic(auto, using(crate::proofs::Laws::parts_laws))]
pub fn first_is(s: &[u8], b: u8) -> bool
    ensures { result ≡ first_is b s.now }
{
    s.first() == Some(&b)
}

// Whether the last byte of s is b.
#[tactic(auto, using(crate::proofs::Laws::parts_laws))]
pub fn last_is(s: &[u8], b: u8) -> bool
    ensures { result ≡ last_is b s.now }
{
    s.last() == Some(&b)
}

// The place of the first b in s, and s's length where there is none.
pub fn find_byte(s: &[u8], b: u8) -> usize
    ensures { result ≡ place_of b s.now }
{
    s.iter().position(|x| *x == b).unwrap_or(s.len())
}

// Whether s begins with t.
#[tactic(auto, using(crate::proofs::Laws::parts_laws))]
pub fn starts_with(s: &[u8], t: &[u8]) -> bool
    ensures { result ≡ prefix_of t.now s.now }
{
    s.starts_with(t)
}

// Whether s ends with t.
#[tactic(auto, using(crate::proofs::Laws::parts_laws))]
pub fn ends_with(s: &[u8], t: &[u8]) -> bool
    ensures { result ≡ suffix_of t.now s.now }
{
    s.ends_with(t)
}

// s without one leading `^`.
pub fn without_caret(s: &[u8]) -> &[u8]
    ensures { result.now ≡ without_caret s.now }
{
    s.strip_prefix(b"^").unwrap_or(s)
}

// s without one trailing `$`.
pub fn without_dollar(s: &[u8]) -> &[u8]
    ensures { result.now ≡ without_dollar s.now }
{
    s.strip_suffix(b"$").unwrap_or(s)
}

// Whether the character k is among those of l, read character by character.
// Stays a loop by hand: how far a step goes is what `decode` read there.
#[tactic(auto, using(crate::proofs::Chars::seeking_laws))]
fn reads_char(l: &[u8], k: u32) -> bool
    ensures { result ≡ has k (codes_of l.now) }
{
    let mut p: usize = 0;
    loop {
        match letters::decode(l, p) {
            Step::Char { code, len } => {
                if code == k {
                    return true;
                }
                p += len;
            }
            Step::Ill => {
                p += 1;
            }
            Step::End => {
                return false;
            }
        }
    }
}

// Whether the character k is among those of l. One of a single byte is told by its bytes: no other character has that byte.
#[tactic(auto, using(crate::proofs::Chars::byte_contained))]
pub fn has_char(l: &[u8], k: u32) -> bool
    ensures { result ≡ has k (codes_of l.now) }
{
    if k < 0x80 {
        l.contains(&(k as u8))
    } else {
        reads_char(l, k)
    }
}
