// A word spelled (01, Spelling a name, steps 6 to 9): the main pass, the final passes, common and then language, and the texts joined.
ghost use Rattle.std.specs.Prelude.{◌≡◌, ◌+◌, ◌≤◌, length};
ghost use Rattle.std.proofs.lemmas.List.Edits.{sets};
ghost use Rattle.phoneme_builder.specs.BufferContracts.{arena};
ghost use Rattle.phoneme_builder.specs.Passes.{joined};
ghost use Rattle.phoneme_builder.specs.InnerContracts.{CodeOf, FinishesAll, FinishedAll, Spells, SpelledAs, TextsIn, texts_in, barred, PutBarred, Joins, GivenIs, word_by, WordIs};

use crate::expressions::{Alternatives, Candidate};
use crate::finals::{Finished, final_pass};
use crate::pass::{Book, run};
use crate::set::{Between, Excess, MOST, Slots, Store, Target, begin, put, text_of};
use crate::way::{FinalSets, Pass};
use languages::LanguageSet;
use rule_index::Table;

// By what a word is spelled: the lists of the main pass, of the common final pass and of the language's own, the limit, where the
// pack's names end, and the start languages.
#[derive(Clone, Copy)]
pub struct Plan {
    pub main: usize,
    pub common: usize,
    pub own: usize,
    pub limit: usize,
    pub guesses: usize,
    pub set: LanguageSet,
}

// How long the answer is, and the flag; or 7; or 8.
#[derive(Clone, Copy)]
pub enum Worded {
    Done { length: usize, flag: bool },
    TooLong,
    TooMany,
}

// The set as a number.
#[tactic(auto, using(crate::proofs::WordLaws::code_by))]
fn code_of(set: LanguageSet) -> u64
    ensures { CodeOf set result }
{
    languages::coded(set)
}

// The final passes from the texts of set 0 or 1, into set 0.
#[tactic(auto, using(crate::proofs::FinalLaws::final_laws))]
fn final_passes(
    store: &mut Store,
    slots: &mut Slots,
    alts: &mut Alternatives,
    book: Book,
    by: Plan,
    from: Target,
) -> Result<Finished, Excess>
    requires { FinishesAll (arena store.old slots.old) by from }
    ensures { FinishedAll (arena store.old slots.old) (arena store.new slots.new)
        book.entry.pack.now book.entry.table.now by from result }
{
    let common = Pass {
        list: by.common,
        limit: by.limit,
        appends: true,
        guesses: by.guesses,
    };
    let first = FinalSets {
        old: from.set,
        result: 2,
        x: 1 - from.set,
        y: 3,
    };
    let shared = final_pass(store, slots, alts, book, common, first, from.count)?;
    let own = Pass {
        list: by.own,
        limit: by.limit,
        appends: true,
        guesses: by.guesses,
    };
    let second = FinalSets {
        old: 2,
        result: 0,
        x: 1,
        y: 3,
    };
    let language = final_pass(store, slots, alts, book, own, second, shared.texts)?;
    Ok(Finished {
        texts: language.texts,
        flag: shared.flag | language.flag,
    })
}

// The word's texts, in set 0.
#[tactic(auto, using(crate::proofs::FinalLaws::main_laws))]
fn spell_word(
    store: &mut Store,
    slots: &mut Slots,
    alts: &mut Alternatives,
    book: Book,
    by: Plan,
    langs: u64,
    word: &[u8],
) -> Result<Finished, Excess>
    requires { Spells by langs }
    ensures { SpelledAs (arena store.new slots.new)
        book.entry.pack.now book.entry.table.now by word.now result }
{
    let count = begin(store, slots, 0, langs);
    let main = Pass {
        list: by.main,
        limit: by.limit,
        appends: false,
        guesses: by.guesses,
    };
    let sides = Between {
        from: 0,
        count,
        to: 1,
    };
    let ran = run(store, slots, alts, book, main, word, sides)?;
    let finished = final_passes(store, slots, alts, book, by, ran.texts)?;
    Ok(Finished {
        texts: finished.texts,
        flag: ran.flag | finished.flag,
    })
}

// The bytes of the n texts of set 0 with a bar behind each.
#[tactic(auto, using(crate::proofs::WordLaws::counting_laws))]
fn bytes_barred(store: &Store, slots: &Slots, n: usize) -> usize
    requires { TextsIn store.now slots.now n }
    ensures { result ≡ barred (texts_in store.now slots.now n) }
{
    let mut total = 0;
    for i in 0..n {
        total += text_of(store, slots, 0, i).len() + 1;
    }
    total
}

// A bar and t, into out from a place on. Returns the place behind them.
#[tactic(auto, using(crate::proofs::WordLaws::joining_laws))]
fn put_barred(out: &mut [u8], at: usize, t: &[u8]) -> usize
    requires { at + 1 + length t.now ≤ length out.old }
    ensures { PutBarred out.old out.new at t.now result }
{
    out[at] = b'|';
    put(out, at + 1, t);
    at + 1 + t.len()
}

// The n texts of set 0, joined by bars, into out from a place on.
#[tactic(auto, using(crate::proofs::WordLaws::joining_laws))]
fn put_joined(store: &Store, slots: &Slots, n: usize, out: &mut [u8], at: usize)
    requires { Joins store.now slots.now n out.old at }
    ensures { out.new ≡ sets out.old at (joined (texts_in store.now slots.now n)) }
{
    let t = text_of(store, slots, 0, 0);
    put(out, at, t);
    let mut p = at + t.len();
    for i in 1..n {
        p = put_barred(out, p, text_of(store, slots, 0, i));
    }
}

// The joined texts of set 0 where they fit into out from a place on. Returns their length.
#[tactic(auto, using(crate::proofs::WordLaws::giving_laws))]
fn give(store: &Store, slots: &Slots, n: usize, out: &mut [u8], at: usize) -> usize
    requires { TextsIn store.now slots.now n }
    ensures { GivenIs (texts_in store.now slots.now n) out.old out.new at result }
{
    if n == 0 {
        return 0;
    }
    let length = bytes_barred(store, slots, n) - 1;
    if at <= out.len() && length <= out.len() - at {
        put_joined(store, slots, n, out, at);
    }
    length
}

// A word spelled by the lists of a table over a pack: its texts, joined by bars, go into `out` from `at` on where they fit, else `out`
// stays as it is. A limit over 256 counts as 256. The first two buffers are lent for the work.
#[tactic(auto, using(crate::proofs::WordLaws::word_laws))]
pub fn word(
    store: &mut Store,
    slots: &mut Slots,
    pack: &[u8],
    table: &Table,
    by: Plan,
    word: &[u8],
    out: &mut [u8],
    at: usize,
) -> Worded
    ensures { WordIs (word_by pack.now table.now by word.now) out.old out.new at result }
{
    let langs = code_of(by.set);
    let within = Plan {
        limit: by.limit.min(MOST),
        ..by
    };
    let mut alts = [Candidate {
        number: 0,
        before: 0,
    }; MOST];
    let book = Book { pack, table };
    match spell_word(store, slots, &mut alts, book, within, langs, word) {
        Ok(Finished { texts, flag }) => Worded::Done {
            length: give(store, slots, texts, out, at),
            flag,
        },
        Err(Excess::TooLong) => Worded::TooLong,
        Err(Excess::TooMany) => Worded::TooMany,
    }
}
