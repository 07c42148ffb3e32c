// The fields of a line. A slice ends where the line's text ends, and places count from the slice's start.
ghost use Rattle.std.specs.Prelude.{◌≡◌};
ghost use Rattle.rules_parser.specs.Fields.{Kind, Blank, NotBlank, NotQuote, Quoted, Plain, span_end, pair_at, field_at, parted_at, part_of, ends_at, tail_ok};
ghost use Rattle.rules_parser.specs.InnerContracts.{PassesKind, gap_at};

// A part of the slice.
#[derive(Clone, Copy)]
pub struct Text {
    pub start: usize,
    pub len: usize,
}

// A field and the place behind it.
#[derive(Clone, Copy)]
pub(crate) struct Field {
    pub(crate) text: Text,
    pub(crate) next: usize,
}

// The part of s that a text is, as far as s goes.
#[tactic(auto, using(crate::proofs::FieldLaws::parts))]
pub fn part(s: &[u8], text: Text) -> &[u8]
    ensures { result.now ≡ part_of s.now text }
{
    let n = s.len();
    let start = text.start;
    let len = text.len;
    if n <= start {
        &s[0..0]
    } else if n - start <= len {
        &s[start..n]
    } else {
        &s[start..start + len]
    }
}

// The first place from p on whose byte does not pass.
pub(crate) fn span<F: Fn(u8) -> bool>(s: &[u8], p: usize, passes: F) -> usize
    requires { F.IsAlwaysCallable passes }
    ensures { (k : Kind) → PassesKind (F.post passes) k → result ≡ span_end k s.now p }
{
    for i in p..s.len() {
        if !passes(s[i]) {
            return i;
        }
    }
    s.len().max(p)
}

// The first place from p on that is no blank.
pub(crate) fn skip_blanks(s: &[u8], p: usize) -> usize
    ensures { result ≡ span_end Blank s.now p }
{
    span(s, p, |b| b == b' ' || b == b'\t')
}

// The next blank from p on.
pub(crate) fn find_blank(s: &[u8], p: usize) -> usize
    ensures { result ≡ span_end NotBlank s.now p }
{
    span(s, p, |b| b != b' ' && b != b'\t')
}

// The next quote from p on.
pub(crate) fn find_quote(s: &[u8], p: usize) -> usize
    ensures { result ≡ span_end NotQuote s.now p }
{
    span(s, p, |b| b != b'"')
}

// a and b at p.
#[tactic(auto, using(base::proofs::PickLaws::cases, crate::proofs::FieldLaws::eqb_by), unfolding(crate::specs::Fields::pair_at))]
pub(crate) fn pair(s: &[u8], p: usize, a: u8, b: u8) -> bool
    ensures { result ≡ pair_at s.now p a b }
{
    p < s.len() && s[p] == a && strings::byte_at(s, p + 1) == u32::from(b)
}

// The quoted string that begins at p.
#[tactic(auto, using(crate::proofs::FieldLaws::span_low, crate::proofs::FieldLaws::fields))]
pub(crate) fn quoted_at(s: &[u8], p: usize) -> Option<Field>
    ensures { result ≡ field_at Quoted s.now p }
{
    if p < s.len() && s[p] == b'"' {
        let e = find_quote(s, p + 1);
        if e < s.len() {
            return Some(Field {
                text: Text {
                    start: p + 1,
                    len: e - (p + 1),
                },
                next: e + 1,
            });
        }
    }
    None
}

// The bytes up to the next blank, where there is one or more.
#[tactic(auto, using(crate::proofs::FieldLaws::fields))]
pub(crate) fn word_at(s: &[u8], p: usize) -> Option<Field>
    ensures { result ≡ field_at Plain s.now p }
{
    let e = find_blank(s, p);
    if p < e {
        Some(Field {
            text: Text {
                start: p,
                len: e - p,
            },
            next: e,
        })
    } else {
        None
    }
}

// The place behind one blank or more.
#[tactic(auto, using(base::proofs::PickLaws::cases), unfolding(crate::specs::InnerContracts::gap_at))]
fn gap(s: &[u8], p: usize) -> Option<usize>
    ensures { result ≡ gap_at s.now p }
{
    let q = skip_blanks(s, p);
    if p < q { Some(q) } else { None }
}

// The quoted string behind one blank or more.
#[tactic(auto, using(crate::proofs::FieldLaws::fields))]
pub(crate) fn next_quoted(s: &[u8], p: usize) -> Option<Field>
    ensures { result ≡ parted_at Quoted s.now p }
{
    quoted_at(s, gap(s, p)?)
}

// The word behind one blank or more.
#[tactic(auto, using(crate::proofs::FieldLaws::fields))]
pub(crate) fn next_word(s: &[u8], p: usize) -> Option<Field>
    ensures { result ≡ parted_at Plain s.now p }
{
    word_at(s, gap(s, p)?)
}

// Nothing but blanks.
#[tactic(auto, using(crate::proofs::FieldLaws::fields))]
pub(crate) fn ends(s: &[u8], p: usize) -> bool
    ensures { result ≡ ends_at s.now p }
{
    s.len() <= skip_blanks(s, p)
}

// Nothing but blanks, and perhaps a comment.
#[tactic(auto, using(crate::proofs::FieldLaws::fields))]
pub(crate) fn tail(s: &[u8], p: usize) -> bool
    ensures { result ≡ tail_ok s.now p }
{
    let q = skip_blanks(s, p);
    s.len() <= q || pair(s, q, b'/', b'/')
}
