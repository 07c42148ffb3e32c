// The fields of a line, parted by blanks, and what they tell.
ghost use Rattle.std.specs.Prelude.{◌≤◌, IfSome};

use languages::LanguageSet;
use program_io::Bytes;

// What a field is to tell: bytes in hex, a number, or a set of languages.
#[derive(Clone, Copy)]
pub(crate) enum Kind {
    Bytes,
    Number,
    Set,
}

// What a field tells: bytes, by where they start and end among those that a line gives; a number; or a set of languages.
#[derive(Clone, Copy)]
pub(crate) enum Field {
    Bytes { start: usize, end: usize },
    Number(u32),
    Set(LanguageSet),
}

// The value of a digit of hex.
fn digit(b: u8) -> Option<u8>
    ensures { IfSome result (λ d. d ≤ 15) }
{
    match b {
        b'0'..=b'9' => Some(b - b'0'),
        b'a'..=b'f' => Some(b - b'a' + 10),
        _ => None,
    }
}

// Puts the bytes of a text in hex behind those of the fields before.
fn put_bytes<const N: usize>(text: &[u8], given: &mut Bytes<N>) -> Option<()> {
    for pair in text.chunks(2) {
        let [high, low] = pair else {
            return None;
        };
        given.push(&[16 * digit(*high)? + digit(*low)?]);
    }
    Some(())
}

// Bytes in hex, `-` for none.
fn bytes<const N: usize>(text: &[u8], given: &mut Bytes<N>) -> Option<Field> {
    let start = given.len();
    if text != b"-".as_slice() {
        put_bytes(text, given)?;
    }
    Some(Field::Bytes {
        start,
        end: given.len(),
    })
}

// `any`, `none` or `some:BITS`.
fn set(text: &[u8]) -> Option<LanguageSet> {
    match text {
        b"any" => Some(LanguageSet::Any),
        b"none" => Some(LanguageSet::NoLanguages),
        _ => program_io::decimal(text.strip_prefix(b"some:")?).map(LanguageSet::SomeLanguages),
    }
}

// What a field tells by its kind, where it is of that.
pub(crate) fn told<const N: usize>(kind: Kind, text: &[u8], given: &mut Bytes<N>) -> Option<Field> {
    match kind {
        Kind::Bytes => bytes(text, given),
        Kind::Number => program_io::decimal(text).map(Field::Number),
        Kind::Set => set(text).map(Field::Set),
    }
}
