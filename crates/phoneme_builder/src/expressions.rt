// The alternatives of an expression that can change a set, read once for each apply.
ghost use Rattle.std.specs.Prelude.{◌≡◌};
ghost use Rattle.phoneme_builder.specs.BufferContracts.{AltIn, Before, alt_of};
ghost use Rattle.phoneme_builder.specs.InnerContracts.{langs_if_alike, Asks, Keeps, KeptIn, Fills, AltsAre};

use crate::set::MOST;
use crate::slots::{NO_LANGUAGES, first_of, langs_of, packed, second_of};
use phonemes::Alternative;

// An alternative, and the languages, merged, of those before it with the same text.
#[derive(Clone, Copy)]
pub(crate) struct Candidate {
    pub(crate) number: u64,
    pub(crate) before: u64,
}

// A table of alternatives: an expression has no more than 256.
pub(crate) type Alternatives = [Candidate; MOST];

// The text of the alternative x of e.
#[tactic(auto, using(crate::proofs::TableLaws::text_laws))]
pub(crate) fn text_in(e: &[u8], x: u64) -> &[u8]
    requires { AltIn e.now x }
    ensures { result.now ≡ (alt_of e.now x).text }
{
    &e[first_of(x)..second_of(x)]
}

// The languages of the alternative y of e where it has the text of x, else none.
#[tactic(auto, using(crate::proofs::TableLaws::alike_laws))]
fn langs_if_alike(e: &[u8], x: u64, y: u64) -> u64
    requires { AltIn e.now x × AltIn e.now y }
    ensures { result ≡ langs_if_alike e.now x y }
{
    if letters::same(text_in(e, x), text_in(e, y)) {
        langs_of(y)
    } else {
        NO_LANGUAGES
    }
}

// The languages, merged, of those of the first n alternatives that have the text of x.
#[tactic(auto, using(crate::proofs::TableLaws::looking_laws))]
fn langs_before(e: &[u8], alts: &[Candidate], n: usize, x: u64) -> u64
    requires { Asks e.now alts.now n x }
    ensures { Before e.now alts.now n (alt_of e.now x).text result }
{
    let mut langs = NO_LANGUAGES;
    for y in &alts[..n] {
        langs = languages::merge_codes(langs, langs_if_alike(e, x, y.number));
    }
    langs
}

// The alternative x behind the first n, unless those with its text have all its languages: then it adds nothing to any set.
// Returns how many there are then.
#[tactic(auto, using(crate::proofs::TableLaws::keep_laws))]
fn keep(e: &[u8], alts: &mut [Candidate], n: usize, x: u64) -> usize
    requires { Keeps e.now alts.old n x }
    ensures { KeptIn e.now alts.old alts.new n x result }
{
    let before = langs_before(e, alts, n, x);
    if languages::merge_codes(before, langs_of(x)) == before {
        return n;
    }
    alts[n] = Candidate { number: x, before };
    n + 1
}

// The alternatives of e in the table, less those that add nothing. Returns how many there are.
#[tactic(auto, using(crate::proofs::PhonemeLaws::filling_laws))]
pub(crate) fn alternatives(e: &[u8], names: &[u8], alts: &mut [Candidate]) -> usize
    requires { Fills e.now alts.old }
    ensures { AltsAre names.now e.now alts.new result }
{
    let mut from = 0;
    let mut n = 0;
    while let Alternative::At {
        start,
        end,
        set,
        next,
    } = phonemes::alternative(e, names, from)
    {
        n = keep(e, alts, n, packed(languages::coded(set), start, end));
        from = next;
    }
    n
}
