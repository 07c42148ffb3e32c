// Lower case, by a table of the code points below U+0180.
ghost use Rattle.std.specs.Prelude.{◌≡◌, ◌+◌, ◌≤◌, ◌<◌, length};
ghost use Rattle.std.proofs.lemmas.List.Edits.{sets};
ghost use Rattle.letters.specs.Utf8.{encode};
ghost use Rattle.lower_case.specs.Lower.{lower_of};
ghost use Rattle.lower_case.specs.InnerContracts.{LoweredInto};

use crate::table::LOWER;
use letters::{Step, decode};

// The lower case of a code point: what the table says below U+0180, and itself from there on.
#[tactic(auto, using(crate::proofs::LowerLaws::lower_past), unfolding(crate::specs::Lower::lower_table))]
pub fn lower(code: u32) -> u32
    ensures { result ≡ lower_of code }
{
    if code < 384 {
        u32::from(LOWER[code as usize])
    } else {
        code
    }
}

// Stores some bytes at `at` of out.
fn put(out: &mut [u8], at: usize, bytes: &[u8])
    requires { at + length bytes.now ≤ length out.old }
    ensures { out.new ≡ sets out.old at bytes.now }
{
    out[at..at + bytes.len()].copy_from_slice(bytes);
}

// Stores the UTF-8 of a code point at `at` of out: `char` lacks some that `decode` reads.
#[tactic(auto, using(crate::proofs::LowerLaws::put_laws))]
fn put_char(out: &mut [u8], at: usize, code: u32)
    requires { (at + length (encode code) ≤ length out.old) × (code < 0x200000) }
    ensures { out.new ≡ sets out.old at (encode code) }
{
    let low = (0x80 + code % 64) as u8;
    match code {
        0..0x80 => put(out, at, &[code as u8]),
        0x80..0x800 => put(out, at, &[(0xC0 + code / 64) as u8, low]),
        0x800..0x10000 => {
            let middle = (0x80 + code / 64 % 64) as u8;
            put(out, at, &[(0xE0 + code / 4096) as u8, middle, low]);
        }
        _ => {
            let third = (0x80 + code / 64 % 64) as u8;
            let second = (0x80 + code / 4096 % 64) as u8;
            put(out, at, &[(0xF0 + code / 262144) as u8, second, third, low]);
        }
    }
}

// Lower-cases s into the front of out, which must have room for all of it.
// Stays a loop by hand: how far a step goes is what `decode` read there.
#[tactic(auto, using(crate::proofs::LowerLaws::lowering_laws))]
pub fn lower_into(s: &[u8], out: &mut [u8]) -> Option<usize>
    ensures { LoweredInto s.now out.old result out.new }
{
    if out.len() < s.len() {
        return None;
    }
    let mut p: usize = 0;
    loop {
        match decode(s, p) {
            Step::Char { code, len } => {
                put_char(out, p, lower(code));
                p += len;
            }
            Step::Ill => {
                out[p] = s[p];
                p += 1;
            }
            Step::End => {
                return Some(p);
            }
        }
    }
}
