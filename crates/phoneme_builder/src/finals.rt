// A final pass (`apply_final_rule` of engine.rs; 01, Spelling a name, step 8): each text is run from its own set, and the results unite.
ghost use Rattle.phoneme_builder.specs.BufferContracts.{arena};
ghost use Rattle.phoneme_builder.specs.InnerContracts.{TextRuns, TextRan, TextFinishes, TextFinishedBy, Finishes, FinishedBy};

use crate::expressions::Alternatives;
use crate::pass::{Book, Passed, run};
use crate::set::{Between, Excess, ROW, Slots, Store, begin, copy_text, langs_at};
use crate::unite::unite;
use crate::way::{FinalSets, Pass};

// The next old text, and how many texts the result has.
#[derive(Clone, Copy)]
pub(crate) struct NextText {
    pub(crate) text: usize,
    pub(crate) count: usize,
}

// How many texts the result has, and the flag.
#[derive(Clone, Copy)]
pub(crate) struct Finished {
    pub(crate) texts: usize,
    pub(crate) flag: bool,
}

// The i-th old text, run from a set begun with its languages.
#[tactic(auto, using(crate::proofs::FinalLaws::text_ran))]
fn run_text(
    store: &mut Store,
    slots: &mut Slots,
    alts: &mut Alternatives,
    book: Book,
    by: Pass,
    sets: FinalSets,
    i: usize,
) -> Result<Passed, Excess>
    requires { TextRuns (arena store.old slots.old) by sets i }
    ensures { TextRan (arena store.old slots.old) (arena store.new slots.new)
        book.entry.pack.now book.entry.table.now by sets i result }
{
    let mut word = [0u8; ROW];
    let e = copy_text(store, slots, sets.old, i, &mut word);
    let langs = langs_at(slots, sets.old, i);
    let count = begin(store, slots, sets.x, langs);
    let between = Between {
        from: sets.x,
        count,
        to: sets.y,
    };
    run(store, slots, alts, book, by, &word[..e], between)
}

// The next old text, run and united into the result.
#[tactic(auto, using(crate::proofs::FinalLaws::final_text_laws))]
fn final_text(
    store: &mut Store,
    slots: &mut Slots,
    alts: &mut Alternatives,
    book: Book,
    by: Pass,
    sets: FinalSets,
    next: NextText,
) -> Result<Finished, Excess>
    requires { TextFinishes (arena store.old slots.old) by sets next }
    ensures { TextFinishedBy (arena store.old slots.old) (arena store.new slots.new)
        book.entry.pack.now book.entry.table.now by sets next result }
{
    let ran = run_text(store, slots, alts, book, by, sets, next.text)?;
    let langs = langs_at(slots, sets.old, next.text);
    let between = Between {
        from: ran.texts.set,
        count: ran.texts.count,
        to: sets.result,
    };
    let texts = unite(store, slots, between, next.count, langs)?;
    Ok(Finished {
        texts,
        flag: ran.flag,
    })
}

// The old texts in order, each run and united into the result.
#[tactic(auto, using(crate::proofs::FinalLaws::finishing_laws))]
pub(crate) fn final_pass(
    store: &mut Store,
    slots: &mut Slots,
    alts: &mut Alternatives,
    book: Book,
    by: Pass,
    sets: FinalSets,
    count: usize,
) -> Result<Finished, Excess>
    requires { Finishes (arena store.old slots.old) by sets count }
    ensures { FinishedBy (arena store.old slots.old) (arena store.new slots.new)
        book.entry.pack.now book.entry.table.now by sets count result }
{
    let mut texts = 0;
    let mut flag = false;
    for text in 0..count {
        let next = NextText { text, count: texts };
        let one = final_text(store, slots, alts, book, by, sets, next)?;
        texts = one.texts;
        flag |= one.flag;
    }
    Ok(Finished { texts, flag })
}
