// One name: every check in the paper's order, and then the answer, or that it has no room.
ghost use Rattle.std.specs.Prelude.{◌≡◌, true, ◌≤◌, length};
ghost use Rattle.base.specs.Pick.{pick};
ghost use Rattle.name_parts.specs.Words.{one_word};
ghost use Rattle.engine.specs.Spelling.{parted_as};
ghost use Rattle.engine.specs.Calls.{letters_then, checked_then, call_of, SpellIs};
ghost use Rattle.engine.specs.InnerContracts.{OpenedIs, FineFor, outcome_on, outcome_for, FoundIs, answered_by, whole_and, CopyOutIs};
ghost use Rattle.engine.specs.InnerContracts.{CallReady, SpeltWhole, spelt_name, spelt_fine, LoweredIs};

use crate::call::{
    Call, Request, Settings, Start, are_known, call_of, have_languages, open, start_at,
};
use crate::encode::{AnswerEnd, is_one_part, part_of, spell_name, spell_part};
use phoneme_builder::{Slots, Store};
use prefixes::Prefix;
use refusals::Refusal;
use rule_index::Table;

// How many bytes were written, and the flag; or a refusal and its place (01, What the desk gets).
#[derive(Clone, Copy)]
pub enum Spelled {
    Done { written: usize, flag: bool },
    Refused { why: Refusal, place: usize },
}

// A refusal that is found of a name before the pack is looked at, and its place.
#[derive(Clone, Copy)]
pub struct NameRefused {
    pub why: Refusal,
    pub place: usize,
}

// Refusals 3, 1 and 2.
#[tactic(auto, using(crate::proofs::CallLaws::found_laws))]
fn letters_of(name: &[u8]) -> Result<(), NameRefused>
    ensures { FoundIs (letters_then name.now) result }
{
    if 96 < name.len() {
        return Err(NameRefused {
            why: Refusal::NameTooLong,
            place: 0,
        });
    }
    if let Some(place) = letters::first_ill(name) {
        return Err(NameRefused {
            why: Refusal::NotUtf8,
            place,
        });
    }
    match letters::first_outside(name) {
        Some(place) => Err(NameRefused {
            why: Refusal::OutsideRange,
            place,
        }),
        None => Ok(()),
    }
}

// Refusals 4, 3, 1 and 2, which come before the pack's.
#[tactic(auto, using(crate::proofs::CallLaws::found_laws))]
fn refusal_of(settings: Settings, start: Start, name: &[u8]) -> Result<(), NameRefused>
    ensures { FoundIs (checked_then settings start name.now) result }
{
    if are_known(settings, start) {
        letters_of(name)
    } else {
        Err(NameRefused {
            why: Refusal::SettingUnknown,
            place: 0,
        })
    }
}

// An answer of so many bytes, or that they have no room.
#[tactic(auto, using(crate::proofs::CallLaws::answer_laws))]
fn answer(spelt: Result<AnswerEnd, Refusal>, room: usize) -> Spelled
    ensures { result ≡ answered_by spelt room }
{
    match spelt {
        Ok(a) if a.at <= room => Spelled::Done {
            written: a.at,
            flag: a.flag,
        },
        Ok(a) => Spelled::Refused {
            why: Refusal::NoRoom,
            place: a.at.min(4294967295),
        },
        Err(why) => Spelled::Refused { why, place: 0 },
    }
}

// Whether the name is spelled as one word, whose texts are at hand when its length is known.
#[tactic(auto, using(crate::proofs::AnswerLaws::single_parted, crate::proofs::AnswerLaws::single_whole))]
fn is_single(call: Call, name: &[u8]) -> bool
    ensures { result ≡ whole_and (parted_as call.kind name.now) (pick call.concat true (one_word name.now)) }
{
    matches!(part_of(call.kind, name), Prefix::Whole) && is_one_part(call, name)
}

// An answer held apart, written where it fits. False where it fits, but is too long to be held apart.
#[tactic(auto, using(crate::proofs::AnswerLaws::copy_laws))]
fn copy_out(spelt: Result<AnswerEnd, Refusal>, apart: &[u8], out: &mut [u8]) -> bool
    ensures { CopyOutIs spelt apart.now out.old out.new result }
{
    let a = match spelt {
        Ok(a) => a,
        Err(_) => return true,
    };
    if out.len() < a.at {
        return true;
    }
    if apart.len() < a.at {
        return false;
    }
    writing::copy(&apart[0..a.at], out, 0);
    true
}

// A lower-cased name, its hyphens now spaces, written as a whole or not at all. What is spelled as one word is spelled once; parts are
// spelled apart first, and what is too long to be held apart is spelled again.
#[tactic(auto, using(crate::proofs::AnswerLaws::lowered_laws))]
fn spell_lowered(
    store: &mut Store,
    slots: &mut Slots,
    pack: &[u8],
    table: &Table,
    call: Call,
    name: &[u8],
    out: &mut [u8],
) -> Result<AnswerEnd, Refusal>
    requires call_ready { CallReady pack.now table.now call }
    requires name_len_bound { length name.now ≤ 96 }
    ensures { SpeltWhole (spelt_name pack.now call name.now) out.old out.new 0 result }
{
    if is_single(call, name) {
        return spell_part(store, slots, pack, table, call, name, out, 0);
    }
    let mut apart = [0u8; 16384];
    let a = spell_name(store, slots, pack, table, call, name, &mut apart, 0);
    if copy_out(a, &apart, out) {
        a
    } else {
        spell_name(store, slots, pack, table, call, name, out, 0)
    }
}

// A name lower-cased at the front of a buffer, its languages guessed, and then its hyphens made spaces. Returns the call with its set.
#[tactic(auto, using(crate::proofs::AnswerLaws::lowered_in, crate::proofs::AnswerLaws::lowered_told))]
fn lower_name(pack: &[u8], table: &Table, call: Call, name: &[u8], low: &mut [u8]) -> Call
    requires call_ready { CallReady pack.now table.now call }
    requires name_len_bound { (length name.now ≤ 96) × (length low.old ≡ 96) }
    ensures { LoweredIs pack.now call name.now low.new result }
{
    let n = name.len();
    lower_case::lower_into(name, low);
    let by = start_at(pack, table, call, &low[0..n]);
    name_parts::replace_hyphens(low);
    by
}

// A name that is fine, lower-cased and spelled.
#[tactic(auto, using(crate::proofs::AnswerLaws::low_laws))]
fn spell_fine(
    store: &mut Store,
    slots: &mut Slots,
    pack: &[u8],
    table: &Table,
    call: Call,
    name: &[u8],
    out: &mut [u8],
) -> Result<AnswerEnd, Refusal>
    requires call_ready { CallReady pack.now table.now call }
    requires name_len_bound { length name.now ≤ 96 }
    ensures { SpeltWhole (spelt_fine pack.now call name.now) out.old out.new 0 result }
{
    let n = name.len();
    let mut low = [0u8; 96];
    let by = lower_name(pack, table, call, name, &mut low);
    spell_lowered(store, slots, pack, table, by, &low[0..n], out)
}

// A name that is fine, with known settings: refusals 5 and 6, and then its answer.
#[tactic(auto, using(crate::proofs::AnswerLaws::opened_laws))]
fn spell_opened(
    store: &mut Store,
    slots: &mut Slots,
    pack: &[u8],
    table: &Table,
    request: Request,
    name: &[u8],
    out: &mut [u8],
) -> Spelled
    requires { FineFor pack.now table.now request name.now }
    ensures { SpellIs (outcome_on pack.now request name.now) out.old result out.new }
{
    let numbers = match request.opened {
        Ok(numbers) => numbers,
        Err(place) => {
            return Spelled::Refused {
                why: Refusal::PackBroken,
                place,
            };
        }
    };
    if !have_languages(request.start, numbers.languages) {
        return Spelled::Refused {
            why: Refusal::NoSuchLanguage,
            place: 0,
        };
    }
    let call = call_of(request.settings, request.start, numbers);
    let a = spell_fine(store, slots, pack, table, call, name, out);
    answer(a, out.len())
}

// Any name, with any settings: the checks in the order 4, 3, 1, 2, 5, 6, and then its answer.
#[tactic(auto, using(crate::proofs::AnswerLaws::at_laws))]
pub(crate) fn spell_at(
    store: &mut Store,
    slots: &mut Slots,
    pack: &[u8],
    table: &Table,
    request: Request,
    name: &[u8],
    out: &mut [u8],
) -> Spelled
    requires { OpenedIs pack.now table.now request.opened }
    ensures { SpellIs (outcome_for request pack.now name.now) out.old result out.new }
{
    match refusal_of(request.settings, request.start, name) {
        Ok(()) => spell_opened(store, slots, pack, table, request, name, out),
        Err(NameRefused { why, place }) => Spelled::Refused { why, place },
    }
}

// The answer of a name, at the front of `out`; or a refusal, and `out` stays as it is.
pub fn spell(settings: Settings, start: Start, pack: &[u8], name: &[u8], out: &mut [u8]) -> Spelled
    ensures { SpellIs (call_of settings start pack.now name.now) out.old result out.new }
{
    let mut table = [[0usize; rule_index::COLUMNS]; rule_index::ROWS];
    let opened = open(pack, &mut table, false);
    let mut store = [[0u8; 32768]; 4];
    let mut slots = [[0u64; 256]; 4];
    let request = Request {
        opened,
        settings,
        start,
    };
    spell_at(&mut store, &mut slots, pack, &table, request, name, out)
}
