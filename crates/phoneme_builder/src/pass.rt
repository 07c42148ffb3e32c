// A pass over a word (01, Spelling a name, steps 6 and 8): at each place the first rule that matches is applied.
ghost use Rattle.std.specs.Prelude.{◌≡◌, true, ◌+◌, ◌<◌, min, length};
ghost use Rattle.base.specs.Pick.{pick};
ghost use Rattle.letters.specs.Utf8.{decode_at};
ghost use Rattle.phoneme_builder.specs.BufferContracts.{arena, BetweenIn};
ghost use Rattle.phoneme_builder.specs.Passes.{step_length};
ghost use Rattle.phoneme_builder.specs.InnerContracts.{names_in, StepIn, StageIn, SettledBy, RuleApplies, RuleApplied, Turns, TurnedBy, RunTo};

use crate::append::append;
use crate::apply::apply;
use crate::expressions::{Alternatives, alternatives};
use crate::set::{Between, Excess, Slots, Store, Target};
use crate::way::Pass;
use letters::Step;
use rule_index::{Table, first_match};

// A pack's bytes, and where the rules of its lists stand in them.
#[derive(Clone, Copy)]
pub(crate) struct Book<'a> {
    pub(crate) pack: &'a [u8],
    pub(crate) table: &'a Table,
}

// Where a pass stands: from the texts of one set into another, at a place of the word; no rule matched from `since` on.
#[derive(Clone, Copy)]
pub(crate) struct Stage {
    pub(crate) sets: Between,
    pub(crate) since: usize,
    pub(crate) place: usize,
}

// What a turn at a place comes to: the next stage, and whether an apply ended at or over the limit.
#[derive(Clone, Copy)]
pub(crate) struct Turned {
    pub(crate) next: Stage,
    pub(crate) full: bool,
}

// What a pass comes to: its texts, and the flag.
#[derive(Clone, Copy)]
pub(crate) struct Passed {
    pub(crate) texts: Target,
    pub(crate) flag: bool,
}

// The bytes of a pack's names, behind which its guesses stand.
#[tactic(auto, using(crate::proofs::CharLaws::names_from))]
fn names_in(pack: &[u8], guesses: usize) -> &[u8]
    ensures { result.now ≡ names_in pack.now guesses }
{
    let end = guesses.min(pack.len());
    &pack[end.min(1)..end]
}

// The bytes of the character at a place.
#[tactic(auto, using(crate::proofs::CharLaws::char_laws))]
fn char_bytes(word: &[u8], place: usize) -> usize
    requires { place < length word.now }
    ensures { (result ≡ step_length (decode_at word.now place)) × StepIn word.now place result }
{
    match letters::decode(word, place) {
        Step::Char { code: _, len } => len,
        Step::Ill | Step::End => 1,
    }
}

// The stretch of unmatched characters before a place: skipped in the main pass, appended in a final one.
#[tactic(auto, using(crate::proofs::StretchLaws::settle_laws))]
fn settle(
    store: &mut Store,
    slots: &mut Slots,
    by: Pass,
    word: &[u8],
    at: Stage,
) -> Result<Between, Excess>
    requires { StageIn (arena store.old slots.old) word.now at }
    ensures { SettledBy (arena store.old slots.old) (arena store.new slots.new)
        by word.now at result }
{
    let sets = at.sets;
    if at.since == at.place || !by.appends {
        return Ok(sets);
    }
    let texts = append(store, slots, sets, &word[at.since..at.place])?;
    Ok(Between {
        from: sets.to,
        count: texts,
        to: sets.from,
    })
}

// A rule's expression applied, behind the stretch before its place.
#[tactic(auto, using(crate::proofs::PassLaws::rule_laws))]
fn apply_rule(
    store: &mut Store,
    slots: &mut Slots,
    alts: &mut Alternatives,
    pack: &[u8],
    by: Pass,
    word: &[u8],
    at: Stage,
    expr: &[u8],
) -> Result<Between, Excess>
    requires { RuleApplies (arena store.old slots.old) by word.now at expr.now }
    ensures { RuleApplied (arena store.old slots.old) (arena store.new slots.new)
        pack.now by word.now at expr.now result }
{
    let sets = settle(store, slots, by, word, at)?;
    let n = alternatives(expr, names_in(pack, by.guesses), alts);
    let texts = apply(store, slots, sets, expr, &alts[..n], by.limit)?;
    Ok(Between {
        from: sets.to,
        count: texts,
        to: sets.from,
    })
}

// The turn at a place of a word.
#[tactic(auto, using(crate::proofs::PassLaws::turn_laws))]
fn turn(
    store: &mut Store,
    slots: &mut Slots,
    alts: &mut Alternatives,
    book: Book,
    by: Pass,
    word: &[u8],
    at: Stage,
) -> Result<Turned, Excess>
    requires { Turns (arena store.old slots.old) by word.now at }
    ensures { TurnedBy (arena store.old slots.old) (arena store.new slots.new)
        book.entry.pack.now book.entry.table.now by word.now at result }
{
    let place = at.place;
    match first_match(book.pack, book.table, by.list, word, place) {
        Some(found) => {
            let expr = &book.pack[found.expression.start..found.expression.end];
            let sets = apply_rule(store, slots, alts, book.pack, by, word, at, expr)?;
            let behind = place + found.step;
            Ok(Turned {
                next: Stage {
                    sets,
                    since: behind,
                    place: behind,
                },
                full: by.limit <= sets.count,
            })
        }
        None => Ok(Turned {
            next: Stage {
                sets: at.sets,
                since: at.since,
                place: place + char_bytes(word, place),
            },
            full: false,
        }),
    }
}

// A pass over a word from the texts of one set, in that set and another; the two take turns.
#[tactic(auto, using(crate::proofs::PassLaws::running_laws))]
pub(crate) fn run(
    store: &mut Store,
    slots: &mut Slots,
    alts: &mut Alternatives,
    book: Book,
    by: Pass,
    word: &[u8],
    sets: Between,
) -> Result<Passed, Excess>
    requires { BetweenIn (arena store.old slots.old) sets }
    ensures { RunTo (arena store.old slots.old) (arena store.new slots.new)
        book.entry.pack.now book.entry.table.now by word.now sets result }
{
    let mut at = Stage {
        sets,
        since: 0,
        place: 0,
    };
    let mut flag = false;
    // Stays a loop by hand: how far a turn goes depends on the rule that matched.
    while at.place < word.len() {
        let turned = turn(store, slots, alts, book, by, word, at)?;
        at = turned.next;
        flag |= turned.full;
    }
    let sets = settle(store, slots, by, word, at)?;
    Ok(Passed {
        texts: Target {
            set: sets.from,
            count: sets.count,
        },
        flag,
    })
}
