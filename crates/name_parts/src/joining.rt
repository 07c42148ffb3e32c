// Texts that are spelled in a name's place (01, Spelling a name, steps 2, 3 and 5).
ghost use Rattle.std.specs.Prelude.{◌≡◌, ◌≢◌, ◌≤◌, ◌<◌, ℕ, eqb, length, drop, slice_index, EachIndex, MatchOption};
ghost use Rattle.base.specs.Pick.{pick};
ghost use mathlib.Core.List.{◌∷◌};
ghost use Rattle.writing.specs.InnerContracts.{Put, cap};
ghost use Rattle.name_parts.specs.Words.{words_of};
ghost use Rattle.name_parts.specs.Joining.{spaced, joined_name, after_apostrophe, kept_of, drops_out, joined_words};
ghost use Rattle.name_parts.specs.InnerContracts.{joined_behind};

use crate::words::take_word;
use prefixes::{NameType, is_prefix};
use writing::{copy, push};

// A hyphen as a space.
#[tactic(auto, using(base::proofs::PickLaws::cases))]
fn replace_hyphen(b: u8) -> u8
    ensures { result ≡ pick (eqb b 45) 32 b }
{
    if b == b'-' { b' ' } else { b }
}

// "Hyphens become spaces", where the name stands.
#[tactic(auto, using(crate::proofs::JoinLaws::join_laws))]
pub fn replace_hyphens(name: &mut [u8])
    ensures { name.new ≡ spaced name.old }
{
    for b in name.iter_mut() {
        *b = replace_hyphen(*b);
    }
}

// The prefix joined to the remainder, at the front of `to`, as far as there is room. Returns its length.
#[tactic(auto, using(crate::proofs::JoinLaws::join_laws))]
pub fn join_prefix(s: &[u8], size: usize, rest: usize, to: &mut [u8]) -> usize
    ensures { Put to.old to.new 0 result (joined_name size rest s.now) }
{
    let n = s.len();
    let p = copy(&s[..size.min(n)], to, 0);
    copy(&s[rest.min(n)..], to, p)
}

// The place of the word's last apostrophe.
fn last_apostrophe(w: &[u8]) -> Option<usize>
    ensures { MatchOption result (EachIndex w.now (λ k. slice_index w.now k ≢ 39)) (λ i. (i < length w.now) × (slice_index w.now i ≡ 39) × ((k : ℕ) → i < k → k < length w.now → slice_index w.now k ≢ 39)) }
{
    w.iter().rposition(|b| *b == b'\'')
}

// What follows the word's last apostrophe, or the word.
#[tactic(auto, using(crate::proofs::JoinLaws::join_laws))]
fn after_apostrophe(w: &[u8]) -> &[u8]
    ensures { result.now ≡ after_apostrophe w.now }
{
    match last_apostrophe(w) {
        Some(i) => &w[i + 1..],
        None => w,
    }
}

// What is kept of a word.
#[tactic(auto, using(crate::proofs::JoinLaws::join_laws), unfolding(crate::specs::Joining::kept_of))]
fn kept_of(kind: NameType, w: &[u8]) -> &[u8]
    ensures { result.now ≡ kept_of kind w.now }
{
    match kind {
        NameType::Ashkenazi | NameType::Generic => w,
        NameType::Sephardic => after_apostrophe(w),
    }
}

// Whether what was kept drops out.
#[tactic(auto, using(crate::proofs::JoinLaws::join_laws), unfolding(crate::specs::Joining::drops_out))]
fn drops_out(kind: NameType, w: &[u8]) -> bool
    ensures { result ≡ drops_out kind w.now }
{
    match kind {
        NameType::Ashkenazi | NameType::Sephardic => is_prefix(kind, w),
        NameType::Generic => false,
    }
}

// What remains of a word, behind those already joined: an empty text stands for them.
#[tactic(auto, using(crate::proofs::JoinLaws::join_laws))]
fn add_word(kind: NameType, w: &[u8], to: &mut [u8], at: usize) -> usize
    requires { at ≤ cap }
    ensures { Put to.old to.new at result (joined_behind kind (w.now ∷ mathlib.Core.List.[])) }
{
    let k = kept_of(kind, w);
    if drops_out(kind, k) {
        return at;
    }
    let p = push(to, at, b' ');
    copy(k, to, p)
}

// The same of all words at or after a place.
#[tactic(auto, using(crate::proofs::JoinLaws::join_laws))]
fn add_words(kind: NameType, s: &[u8], from: usize, to: &mut [u8], at: usize) -> usize
    requires { at ≤ cap }
    ensures { Put to.old to.new at result (joined_behind kind (words_of (drop from s.now))) }
{
    let mut p = from;
    let mut n = at;
    while let Some((w, next)) = take_word(s, p) {
        p = next;
        n = add_word(kind, w, to, n);
    }
    n
}

// The words of a name joined by a space, at the front of `to`, as far as there is room. Returns their length.
#[tactic(auto, using(crate::proofs::JoinLaws::join_laws, crate::proofs::JoinLaws::join_kept))]
pub fn join_words(kind: NameType, s: &[u8], to: &mut [u8]) -> usize
    ensures { Put to.old to.new 0 result (joined_words kind s.now) }
{
    let mut p = 0;
    while let Some((w, next)) = take_word(s, p) {
        p = next;
        let k = kept_of(kind, w);
        if drops_out(kind, k) {
            continue;
        }
        let n = copy(k, to, 0);
        return add_words(kind, s, next, to, n);
    }
    0
}
