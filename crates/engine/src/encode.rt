// A name spelled (01, Spelling a name, steps 2 to 5): by its prefix, by its words, or as one word.
ghost use Rattle.std.specs.Prelude.{◌≡◌, true, false, ◌+◌, ◌≤◌, ◌<◌, min, length};
ghost use Rattle.base.specs.Pick.{pick};
ghost use Rattle.languages.specs.Sets.{single_of};
ghost use Rattle.name_parts.specs.Words.{one_word};
ghost use Rattle.writing.specs.InnerContracts.{cap};
ghost use Rattle.engine.specs.Spelling.{parted_as};
ghost use Rattle.engine.specs.Calls.{language_by};
ghost use Rattle.engine.specs.InnerContracts.{CallReady, Asks, list_numbers, ended_at, SpeltInto, SpeltWhole, both_of, chosen_refusal, HyphenAt, bracketed, JoinedIs};
ghost use Rattle.engine.specs.InnerContracts.{spelt_word, spelt_part, spelt_name, spelt_afresh, spelt_words};

use crate::call::{Call, afresh, start_at};
use languages::LanguageSet;
use phoneme_builder::{Plan, Slots, Store, Worded};
use prefixes::{NameType, Prefix};
use refusals::Refusal;
use rule_index::Table;

// No slice has more bytes; a place stays at most this.
const CAP: usize = 0x8000_0000_0000_0000;

// Where an answer ends, and its flag.
#[derive(Clone, Copy)]
pub struct AnswerEnd {
    pub at: usize,
    pub flag: bool,
}

// The numbers of the three lists that a word is spelled by.
#[derive(Clone, Copy)]
pub struct Lists {
    pub main: usize,
    pub common: usize,
    pub own: usize,
}

// Of a name with a prefix: where its remainder begins, and how long the joined name is.
#[derive(Clone, Copy)]
pub struct Joined {
    pub rest: usize,
    pub length: usize,
}

// The language whose lists are used: the single one, else `any`.
#[tactic(auto, using(crate::proofs::EncodeLaws::encode_laws))]
fn language_of(set: LanguageSet, any: usize) -> usize
    ensures { result ≡ language_by (single_of set) any }
{
    match set.single() {
        Some(l) => l as usize,
        None => any,
    }
}

#[tactic(auto, unfolding(crate::specs::InnerContracts::list_numbers))]
fn lists_of(call: Call, l: usize) -> Lists
    requires { (l < call.languages) × (call.languages ≤ 32) × (call.rules < 2) }
    ensures { result ≡ list_numbers call l }
{
    let n = call.languages;
    let k = call.rules;
    Lists {
        main: 3 * l,
        common: 3 * n + k,
        own: 3 * l + 1 + k,
    }
}

// What a word's answer comes to.
#[tactic(auto, using(crate::proofs::EncodeLaws::encode_laws))]
fn ended(answer: Worded, at: usize) -> Result<AnswerEnd, Refusal>
    ensures { result ≡ ended_at answer at }
{
    match answer {
        Worded::Done { length, flag } => Ok(AnswerEnd {
            at: at.saturating_add(length).min(CAP),
            flag,
        }),
        Worded::TooLong => Err(Refusal::TextTooLong),
        Worded::TooMany => Err(Refusal::TooManyTexts),
    }
}

// Whether a name with no prefix is spelled as one word.
#[tactic(auto, using(base::proofs::PickLaws::cases))]
pub(crate) fn is_one_part(call: Call, name: &[u8]) -> bool
    ensures { result ≡ pick call.concat true (one_word name.now) }
{
    call.concat || name_parts::one_word(name)
}

// A word spelled with the call's set, into `out` from `at` on where it fits as a whole.
#[tactic(auto, using(crate::proofs::EncodeLaws::language_below, crate::proofs::EncodeLaws::few, crate::proofs::EncodeLaws::word_spelt))]
fn spell_word(
    store: &mut Store,
    slots: &mut Slots,
    pack: &[u8],
    table: &Table,
    call: Call,
    word: &[u8],
    out: &mut [u8],
    at: usize,
) -> Result<AnswerEnd, Refusal>
    requires { CallReady pack.now table.now call }
    ensures { SpeltWhole (spelt_word pack.now call word.now) out.old out.new at result }
{
    let set = call.set;
    let lists = lists_of(call, language_of(set, call.any));
    let by = Plan {
        main: lists.main,
        common: lists.common,
        own: lists.own,
        limit: call.limit,
        guesses: call.guesses,
        set,
    };
    let answer = phoneme_builder::word(store, slots, pack, table, by, word, out, at);
    ended(answer, at)
}

// A name spelled as one word: its words joined, or the part of it where its only word stands.
#[tactic(auto, using(crate::proofs::EncodeLaws::part_laws))]
pub(crate) fn spell_part(
    store: &mut Store,
    slots: &mut Slots,
    pack: &[u8],
    table: &Table,
    call: Call,
    name: &[u8],
    out: &mut [u8],
    at: usize,
) -> Result<AnswerEnd, Refusal>
    requires call_ready { CallReady pack.now table.now call }
    requires name_len_bound { length name.now ≤ 96 }
    ensures { SpeltWhole (spelt_part pack.now call name.now) out.old out.new at result }
{
    let by = start_at(pack, table, call, name);
    if call.concat {
        let mut joined = [0u8; 96];
        let n = name_parts::join_words(call.kind, name, &mut joined);
        spell_word(store, slots, pack, table, by, &joined[0..n], out, at)
    } else {
        let word = name_parts::next_word(name, 0);
        spell_word(store, slots, pack, table, by, word, out, at)
    }
}

// Where a name is parted: only Generic ones are.
#[tactic(auto, using(crate::proofs::EncodeLaws::encode_laws))]
pub(crate) fn part_of(kind: NameType, name: &[u8]) -> Prefix
    ensures { result ≡ parted_as kind name.now }
{
    match kind {
        NameType::Generic => prefixes::prefix_of(name),
        NameType::Ashkenazi | NameType::Sephardic => Prefix::Whole,
    }
}

// A name's prefix joined to its remainder, at the front of a buffer, if it has one.
#[tactic(auto, using(crate::proofs::NameLaws::join_laws))]
fn join_parts(kind: NameType, name: &[u8], joined: &mut [u8]) -> Option<Joined>
    requires { (length name.now ≤ 96) × (length joined.old ≡ 96) }
    ensures { JoinedIs kind name.now joined.new result }
{
    match part_of(kind, name) {
        Prefix::Leads { size, rest } => Some(Joined {
            rest,
            length: name_parts::join_prefix(name, size, rest, joined),
        }),
        Prefix::Whole => None,
    }
}

// Between words, and not before the first: p is how far the name is read.
#[tactic(auto, using(crate::proofs::EncodeLaws::encode_laws))]
fn hyphen(out: &mut [u8], at: usize, p: usize) -> usize
    ensures { HyphenAt out.old out.new at p result }
{
    if p == 0 {
        at
    } else {
        writing::push(out, at, b'-')
    }
}

// Two answers as one that ends at a place.
#[tactic(auto, using(crate::proofs::EncodeLaws::encode_laws))]
fn both(first: AnswerEnd, second: AnswerEnd, at: usize) -> AnswerEnd
    ensures { result ≡ both_of first second at }
{
    AnswerEnd {
        at,
        flag: first.flag || second.flag,
    }
}

// Where a remainder is refused: the joined name's refusal goes before.
#[tactic(auto, unfolding(crate::specs::InnerContracts::chosen_refusal))]
fn choose_refusal(joined: Result<AnswerEnd, Refusal>, remainder: Refusal) -> Refusal
    ensures { result ≡ chosen_refusal joined remainder }
{
    match joined {
        Err(why) => why,
        Ok(_) => remainder,
    }
}

// A name spelled, into `out` from `at` on, as far as there is room: by its prefix, the remainder and the joined name both, or by its
// words.
#[cycle(spell_bracketed_spell_name_spell_words)]
#[tactic(auto, using(crate::proofs::NameLaws::name_laws))]
pub(crate) fn spell_name(
    store: &mut Store,
    slots: &mut Slots,
    pack: &[u8],
    table: &Table,
    call: Call,
    name: &[u8],
    out: &mut [u8],
    at: usize,
) -> Result<AnswerEnd, Refusal>
    requires { Asks pack.now table.now call name.now at }
    ensures { SpeltInto (spelt_name pack.now call name.now) out.old out.new at result }
{
    let mut joined = [0u8; 96];
    let Some(Joined { rest, length }) = join_parts(call.kind, name, &mut joined) else {
        return if is_one_part(call, name) {
            spell_part(store, slots, pack, table, call, name, out, at)
        } else {
            spell_words(store, slots, pack, table, call, name, out, at)
        };
    };
    let a = match spell_bracketed(store, slots, pack, table, call, &name[rest..], out, at) {
        Ok(a) => a,
        Err(why) => {
            let b = spell_bracketed(store, slots, pack, table, call, &joined[0..length], out, at);
            return Err(choose_refusal(b, why));
        }
    };
    let p = writing::push(out, a.at, b'-');
    let b = spell_bracketed(store, slots, pack, table, call, &joined[0..length], out, p)?;
    Ok(both(b, a, b.at))
}

// A name spelled afresh, between brackets.
#[cycle(spell_bracketed_spell_name_spell_words)]
#[tactic(auto, using(crate::proofs::NameLaws::bracketed_laws))]
fn spell_bracketed(
    store: &mut Store,
    slots: &mut Slots,
    pack: &[u8],
    table: &Table,
    call: Call,
    name: &[u8],
    out: &mut [u8],
    at: usize,
) -> Result<AnswerEnd, Refusal>
    requires { Asks pack.now table.now call name.now at }
    ensures { SpeltInto (bracketed (spelt_afresh pack.now call name.now)) out.old out.new at result }
{
    let p = writing::push(out, at, b'(');
    let a = spell_name(store, slots, pack, table, afresh(call), name, out, p)?;
    Ok(AnswerEnd {
        at: writing::push(out, a.at, b')'),
        flag: a.flag,
    })
}

// Each word of a name spelled afresh, a hyphen between them.
#[cycle(spell_bracketed_spell_name_spell_words)]
#[tactic(auto, using(crate::proofs::NameLaws::words_laws))]
fn spell_words(
    store: &mut Store,
    slots: &mut Slots,
    pack: &[u8],
    table: &Table,
    call: Call,
    name: &[u8],
    out: &mut [u8],
    at: usize,
) -> Result<AnswerEnd, Refusal>
    requires asks { Asks pack.now table.now call name.now at }
    requires name_value { one_word name.now ≡ false }
    ensures { SpeltInto (spelt_words pack.now call name.now) out.old out.new at result }
{
    let mut all = AnswerEnd { at, flag: false };
    let mut p: usize = 0;
    // Stays a loop by hand: where the next word begins is known once this one is read.
    loop {
        let w = name_parts::next_word(name, p);
        if w.len() == 0 {
            return Ok(all);
        }
        let q = hyphen(out, all.at, p);
        let b = spell_name(store, slots, pack, table, afresh(call), w, out, q)?;
        all = both(all, b, b.at);
        p = name_parts::past_word(name, p);
    }
}
