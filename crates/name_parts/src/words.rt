// Words of a name (01, Spelling a name, step 4), each shown as the part of the name where it stands.
ghost use Rattle.std.specs.Prelude.{◌≡◌, MatchOption, drop, length};
ghost use Rattle.name_parts.specs.Words.{word_start, word_end, word_at, past_word, one_word};

// What stands at p and behind it; nothing where s is shorter. `skip` would walk all bytes before p.
#[tactic(auto, using(crate::proofs::WordLaws::from_is))]
fn from(s: &[u8], p: usize) -> &[u8]
    ensures { result.now ≡ drop p s.now }
{
    &s[p.min(s.len())..]
}

// The first place at or after p with no space, or the end.
#[tactic(auto, using(crate::proofs::WordLaws::word_laws))]
fn word_start(s: &[u8], p: usize) -> usize
    ensures { result ≡ word_start s.now p }
{
    p + from(s, p).iter().take_while(|b| **b == b' ').count()
}

// The first place at or after p with a space, or the end.
#[tactic(auto, using(crate::proofs::WordLaws::word_laws))]
fn word_end(s: &[u8], p: usize) -> usize
    ensures { result ≡ word_end s.now p }
{
    p + from(s, p).iter().take_while(|b| **b != b' ').count()
}

// The next word at or after p: the part of s from its start up to the place behind it; empty where there is none.
#[tactic(auto, using(crate::proofs::WordLaws::word_laws))]
pub fn next_word(s: &[u8], p: usize) -> &[u8]
    ensures { result.now ≡ word_at s.now p }
{
    let start = word_start(s, p);
    let end = word_end(s, start);
    s.get(start..end).unwrap_or(&[])
}

// The place behind that word.
#[tactic(auto, using(crate::proofs::WordLaws::word_laws))]
pub fn past_word(s: &[u8], p: usize) -> usize
    ensures { result ≡ past_word s.now p }
{
    word_end(s, word_start(s, p))
}

// That word and the place behind it, where there is one.
#[tactic(auto, using(crate::proofs::WordLaws::word_laws))]
pub(crate) fn take_word(s: &[u8], p: usize) -> Option<(&[u8], usize)>
    ensures { MatchOption result (length (word_at s.now p) ≡ 0) (λ x. (x.0.now ≡ word_at s.now p) × (length x.0.now ≡ 0 → ⊥) × (x.1 ≡ past_word s.now p)) }
{
    let word = next_word(s, p);
    if word.is_empty() {
        None
    } else {
        Some((word, past_word(s, p)))
    }
}

// Whether the name has exactly one word.
#[tactic(auto, using(crate::proofs::WordLaws::word_laws))]
pub fn one_word(s: &[u8]) -> bool
    ensures { result ≡ one_word s.now }
{
    !next_word(s, 0).is_empty() && next_word(s, past_word(s, 0)).is_empty()
}
