// UTF-8 as RFC 3629 has it: the character at a place, and the first ill-formed sequence.
ghost use Rattle.std.specs.Prelude.{◌≡◌, get_or};
ghost use Rattle.letters.specs.Utf8.{within, low_second, high_second, code2, code3, code4, decode2, decode3, decode4, decode_bytes, decode_at};
ghost use Rattle.letters.specs.Reading.{first_ill};

// What stands at a place.
#[derive(Clone, Copy)]
pub enum Step {
    Char { code: u32, len: usize },
    Ill,
    End,
}

// The byte at i, and 0, which continues no character, past the end.
fn byte_at(s: &[u8], i: usize) -> u8
    ensures { result ≡ get_or s.now i 0 }
{
    if i < s.len() { s[i] } else { 0 }
}

#[tactic(auto, using(base::proofs::PickLaws::cases), unfolding(crate::specs::Utf8::within, base::specs::Pick::and))]
fn is_within(lo: u8, hi: u8, b: u8) -> bool
    ensures { result ≡ within lo hi b }
{
    lo <= b && b <= hi
}

// The bounds of the second byte of three or four, by the first.
#[tactic(auto, using(base::proofs::PickLaws::cases), unfolding(crate::specs::Utf8::low_second))]
fn low_second(a: u8) -> u8
    ensures { result ≡ low_second a }
{
    match a {
        0xE0 => 0xA0,
        0xF0 => 0x90,
        _ => 0x80,
    }
}

#[tactic(auto, using(base::proofs::PickLaws::cases), unfolding(crate::specs::Utf8::high_second))]
fn high_second(a: u8) -> u8
    ensures { result ≡ high_second a }
{
    match a {
        0xED => 0x9F,
        0xF4 => 0x8F,
        _ => 0xBF,
    }
}

// The code point of two, three and four bytes.
#[tactic(auto, unfolding(crate::specs::Utf8::code2))]
fn code_2(a: u8, b: u8) -> u32
    ensures { result ≡ code2 a b }
{
    u32::from(a % 32) * 64 + u32::from(b % 64)
}

#[tactic(auto, unfolding(crate::specs::Utf8::code3))]
fn code_3(a: u8, b: u8, c: u8) -> u32
    ensures { result ≡ code3 a b c }
{
    u32::from(a % 16) * 4096 + u32::from(b % 64) * 64 + u32::from(c % 64)
}

#[tactic(auto, unfolding(crate::specs::Utf8::code4))]
fn code_4(a: u8, b: u8, c: u8, d: u8) -> u32
    ensures { result ≡ code4 a b c d }
{
    u32::from(a % 8) * 262144
        + u32::from(b % 64) * 4096
        + u32::from(c % 64) * 64
        + u32::from(d % 64)
}

#[tactic(auto, using(base::proofs::PickLaws::cases), unfolding(crate::specs::Utf8::decode2))]
fn decode_2(a: u8, b: u8) -> Step
    ensures { result ≡ decode2 a b }
{
    if is_within(0x80, 0xBF, b) {
        Step::Char {
            code: code_2(a, b),
            len: 2,
        }
    } else {
        Step::Ill
    }
}

#[tactic(auto, using(base::proofs::PickLaws::pick_yes, base::proofs::PickLaws::yes_by, crate::proofs::Utf8Laws::second_by, crate::proofs::Utf8Laws::char_of, base::proofs::PickLaws::cases), unfolding(crate::specs::Utf8::decode3))]
fn decode_3(a: u8, b: u8, c: u8) -> Step
    ensures { result ≡ decode3 a b c }
{
    if is_within(low_second(a), high_second(a), b) && is_within(0x80, 0xBF, c) {
        Step::Char {
            code: code_3(a, b, c),
            len: 3,
        }
    } else {
        Step::Ill
    }
}

#[tactic(auto, using(base::proofs::PickLaws::pick_yes, base::proofs::PickLaws::yes_by, crate::proofs::Utf8Laws::second_by, crate::proofs::Utf8Laws::char_of, base::proofs::PickLaws::cases), unfolding(crate::specs::Utf8::decode4))]
fn decode_4(a: u8, b: u8, c: u8, d: u8) -> Step
    ensures { result ≡ decode4 a b c d }
{
    if is_within(low_second(a), high_second(a), b)
        && is_within(0x80, 0xBF, c)
        && is_within(0x80, 0xBF, d)
    {
        Step::Char {
            code: code_4(a, b, c, d),
            len: 4,
        }
    } else {
        Step::Ill
    }
}

// The character that starts with the byte a, before b, c and d.
#[tactic(auto, using(base::proofs::PickLaws::cases), unfolding(crate::specs::Utf8::decode_bytes))]
fn decode_bytes(a: u8, b: u8, c: u8, d: u8) -> Step
    ensures { result ≡ decode_bytes a b c d }
{
    if a <= 0x7F {
        Step::Char {
            code: u32::from(a),
            len: 1,
        }
    } else if is_within(0xC2, 0xDF, a) {
        decode_2(a, b)
    } else if is_within(0xE0, 0xEF, a) {
        decode_3(a, b, c)
    } else if is_within(0xF0, 0xF4, a) {
        decode_4(a, b, c, d)
    } else {
        Step::Ill
    }
}

// What stands at p of s, by its first byte and the three behind it.
#[tactic(auto, using(crate::proofs::Utf8Laws::decode_at_in, base::proofs::PickLaws::cases), unfolding(crate::specs::Utf8::decode_at))]
fn decode_long(s: &[u8], p: usize) -> Step
    ensures { result ≡ decode_at s.now p }
{
    if p < s.len() {
        decode_bytes(
            byte_at(s, p),
            byte_at(s, p + 1),
            byte_at(s, p + 2),
            byte_at(s, p + 3),
        )
    } else {
        Step::End
    }
}

// What stands at p of s. Most characters are of one or two bytes, which are told without looking at more.
#[tactic(auto, using(crate::proofs::Utf8Laws::decode_laws))]
pub fn decode(s: &[u8], p: usize) -> Step
    ensures { result ≡ decode_at s.now p }
{
    if p < s.len() {
        let a = s[p];
        if a <= 0x7F {
            Step::Char {
                code: u32::from(a),
                len: 1,
            }
        } else if is_within(0xC2, 0xDF, a) {
            decode_2(a, byte_at(s, p + 1))
        } else {
            decode_long(s, p)
        }
    } else {
        Step::End
    }
}

// Where the first ill-formed sequence of s starts; none where s is well formed.
// Stays a loop by hand, as in `range`: how far a step goes is what was read.
#[tactic(auto, using(crate::proofs::ReadingLaws::ill_laws))]
pub fn first_ill(s: &[u8]) -> Option<usize>
    ensures { result ≡ first_ill s.now }
{
    let mut p: usize = 0;
    loop {
        match decode_long(s, p) {
            Step::Char { code: _, len } => {
                p += len;
            }
            Step::Ill => {
                return Some(p);
            }
            Step::End => {
                return None;
            }
        }
    }
}
