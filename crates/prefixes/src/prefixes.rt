// Prefixes of names (01, Spelling a name): small tables, walked in the stated order.
ghost use Rattle.std.specs.Prelude.{◌≡◌};
ghost use Rattle.prefixes.specs.Prefixes.{prefix_fits, that_fit, led_by, among, prefixes_of, split_of, is_prefix};
ghost use Rattle.prefixes.specs.InnerContracts.{longer_than, texts_of};

#[derive(Clone, Copy)]
pub enum NameType {
    Ashkenazi,
    Generic,
    Sephardic,
}

// A prefix leads the name: how many bytes it has, and where the remainder begins; or the name is one whole.
#[derive(Clone, Copy)]
pub enum Prefix {
    Leads { size: usize, rest: usize },
    Whole,
}

// The prefixes of each type of name, in the stated order.
const ASHKENAZI: [&[u8]; 6] = [b"bar", b"ben", b"da", b"de", b"van", b"von"];

const GENERIC: [&[u8]; 14] = [
    b"da", b"dal", b"de", b"de la", b"del", b"dela", b"della", b"des", b"di", b"do", b"dos", b"du",
    b"van", b"von",
];

const SEPHARDIC: [&[u8]; 16] = [
    b"al", b"el", b"da", b"dal", b"de", b"de la", b"del", b"dela", b"della", b"des", b"di", b"do",
    b"dos", b"du", b"van", b"von",
];

// Whether s starts with p and a space.
#[tactic(auto, using(crate::proofs::PrefixLaws::prefix_laws))]
fn fits_with_space(s: &[u8], p: &[u8]) -> bool
    ensures { result ≡ prefix_fits p.now s.now }
{
    texts::starts_with(s, p) && s.get(p.len()) == Some(&b' ')
}

// Whether a prefix of so many bytes is longer than the longest so far.
#[tactic(auto, using(crate::proofs::PrefixLaws::prefix_laws))]
fn is_longer(size: usize, best: Prefix) -> bool
    ensures { result ≡ longer_than best size }
{
    match best {
        Prefix::Leads {
            size: most,
            rest: _,
        } => most < size,
        Prefix::Whole => true,
    }
}

// The longest prefix of the table that stands before a space at the front of s.
#[tactic(auto, using(crate::proofs::PrefixLaws::prefix_laws))]
fn longest_fit(table: &[&[u8]], s: &[u8]) -> Prefix
    ensures { result ≡ led_by (that_fit (texts_of table.now) s.now) }
{
    let mut best = Prefix::Whole;
    for p in table {
        let size = p.len();
        if is_longer(size, best) && fits_with_space(s, p) {
            let rest = size + 1;
            best = Prefix::Leads { size, rest };
        }
    }
    best
}

// Whether w is a prefix of the table.
fn is_among(table: &[&[u8]], w: &[u8]) -> bool
    ensures { result ≡ among (texts_of table.now) w.now }
{
    table.iter().any(|p| letters::same(p, w))
}

// Where a Generic name is parted: behind `d'`, or else behind the longest prefix that stands before a space.
#[tactic(auto, using(crate::proofs::PrefixLaws::prefix_laws))]
pub fn prefix_of(s: &[u8]) -> Prefix
    ensures { result ≡ split_of s.now }
{
    if texts::starts_with(s, b"d'") {
        return Prefix::Leads { size: 1, rest: 2 };
    }
    longest_fit(&GENERIC, s)
}

// Whether a word is one of the type's prefixes.
#[tactic(auto, using(crate::proofs::PrefixLaws::prefix_laws), unfolding(crate::specs::Prefixes::prefixes_of))]
pub fn is_prefix(kind: NameType, w: &[u8]) -> bool
    ensures { result ≡ is_prefix kind w.now }
{
    match kind {
        NameType::Ashkenazi => is_among(&ASHKENAZI, w),
        NameType::Generic => is_among(&GENERIC, w),
        NameType::Sephardic => is_among(&SEPHARDIC, w),
    }
}
