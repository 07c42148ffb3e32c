// Strings behind their length bytes and big-endian numbers, read at a place of any bytes (01, Bundle and pack).
#![tactic(auto)]

ghost use Rattle.std.specs.Prelude.{◌≡◌, ◌+◌, ◌<◌, ◌≤◌, MatchOption, length, take, drop};
ghost use Rattle.strings.specs.InnerContracts.{ByteIs, number_at, string_at};

// A part of some bytes: from start up to end.
#[derive(Clone, Copy)]
pub struct Span {
    pub start: usize,
    pub end: usize,
}

// A number and the place behind it.
#[derive(Clone, Copy)]
pub struct Number {
    pub value: u32,
    pub next: usize,
}

// The string at a place of `names`: a length byte and as many bytes; none where bytes run out.
#[tactic(auto, using(base::proofs::PickLaws::cases), unfolding(crate::specs::InnerContracts::string_at))]
pub fn string_at(names: &[u8], at: usize) -> Option<Span>
    ensures { result ≡ string_at names.now at }
{
    let length = *names.get(at)?;
    let start = at + 1;
    let end = start + usize::from(length);
    if end <= names.len() {
        Some(Span { start, end })
    } else {
        None
    }
}

// The byte at a place, and 0 behind the end.
pub fn byte_at(s: &[u8], at: usize) -> u32
    ensures { ByteIs s.now at result }
{
    u32::from(s.get(at).copied().unwrap_or(0))
}

// The N bytes at a place.
fn bytes_at<const N: usize>(s: &[u8], at: usize) -> Option<&[u8; N]>
    ensures { MatchOption result (length s.now < at + N) (λ bytes. (at + N ≤ length s.now) × (bytes.now ≡ take N (drop at s.now))) }
{
    s.get(at..)?.first_chunk()
}

// The number of 2 bytes at a place ("Counts are big-endian").
#[tactic(auto, using(crate::proofs::Readers::number_laws))]
pub fn count_at(s: &[u8], at: usize) -> Option<Number>
    ensures { result ≡ number_at 2 s.now at }
{
    let count = bytes_at::<2>(s, at)?;
    Some(Number {
        value: u32::from(u16::from_be_bytes(*count)),
        next: at + 2,
    })
}

// The number of 4 bytes at a place.
#[tactic(auto, using(crate::proofs::Readers::number_laws))]
pub fn mask_at(s: &[u8], at: usize) -> Option<Number>
    ensures { result ≡ number_at 4 s.now at }
{
    let mask = bytes_at::<4>(s, at)?;
    Some(Number {
        value: u32::from_be_bytes(*mask),
        next: at + 4,
    })
}
