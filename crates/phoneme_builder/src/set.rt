// A set of at most 256 texts of 128 bytes: the texts stand in rows, and the slots, in the order of the texts, say which row and how long.
// A text that may enter is written into the row behind the others, and then looked up.
// Four sets stand side by side, by number: 256 rows of 128 bytes and 256 slots each.
ghost use Rattle.std.specs.Prelude.{◌≡◌, ◌++◌, ◌+◌, ◌*◌, ◌≤◌, ◌<◌, length, take, drop};
ghost use Rattle.phoneme_builder.specs.BufferContracts.{ROW, find_l, AsksNext, ins_at, put, slot_of, InsertsText, first_of, second_of, slot_text, slot_texts, added, IsSet, SetIs, Enters, arena, AddsTo, AddedTo, Begins, BegunAs, TextIn, text_in, langs_in, CopiedIs};

use crate::slots::{NO_LANGUAGES, first_of, langs_of, merged, packed, second_of};
use std::cmp::Ordering;

// The rows and the slots of four sets. The two are lent side by side: of a struct of two `&mut` each contract would have to say that it
// keeps both.
pub type Store = [[u8; STORE]; SETS];

pub type Slots = [[u64; MOST]; SETS];

// The bytes of a row, which no text exceeds, and the texts that a set may have.
pub(crate) const ROW: usize = 128;

pub(crate) const MOST: usize = 256;

// The bytes of a set's rows, and the sets.
const STORE: usize = 32768;

const SETS: usize = 4;

// A set by its number, and how many texts it has.
#[derive(Clone, Copy)]
pub(crate) struct Target {
    pub(crate) set: usize,
    pub(crate) count: usize,
}

// A set to read, its texts, and another set to write.
#[derive(Clone, Copy)]
pub(crate) struct Between {
    pub(crate) from: usize,
    pub(crate) count: usize,
    pub(crate) to: usize,
}

// What a set can't take: a text over 128 bytes (01, the table, 7), or a 257th text (8).
#[derive(Clone, Copy, PartialEq, Eq, Debug)]
pub(crate) enum Excess {
    TooLong,
    TooMany,
}

// The text that a slot names.
#[tactic(auto, using(crate::proofs::FindLaws::row_is))]
fn row(store: &[u8], slot: u64) -> &[u8]
    requires { first_of slot * ROW + second_of slot ≤ length store.now }
    ensures { result.now ≡ slot_text store.now slot }
{
    let a = first_of(slot) * ROW;
    let e = a + second_of(slot);
    &store[a..e]
}

// Which text is asked next: the last one as long as none is known to stand behind, since most go behind it; then the middle one.
#[tactic(auto, using(crate::proofs::AskLaws::ask_laws))]
fn ask_next(low: usize, high: usize, count: usize) -> usize
    requires { (low < high) × (high ≤ count) }
    ensures { AsksNext low high count result }
{
    if high == count {
        high - 1
    } else {
        low + (high - low) / 2
    }
}

// Where t stands among the texts, or where it would go, by halves: it stands behind those before `low`, and before those from `high` on.
// Stays a loop by hand: it asks the last text first, and nine at most by its measure; `binary_search_by` promises neither.
#[tactic(auto, using(crate::proofs::FindLaws::find_laws))]
pub(crate) fn find(store: &[u8], slots: &[u64], count: usize, t: &[u8]) -> Result<usize, usize>
    requires { IsSet store.now slots.now count }
    ensures { result ≡ find_l t.now (slot_texts store.now slots.now count) }
{
    let mut low: usize = 0;
    let mut high = count;
    while low < high {
        let asked = ask_next(low, high, count);
        match letters::compare(row(store, slots[asked]), t) {
            Ordering::Less => low = asked + 1,
            Ordering::Equal => return Ok(asked),
            Ordering::Greater => high = asked,
        }
    }
    Err(low)
}

// Puts v at index p of the first n, and moves the others up by one. Not by `copy_within`, for which libbm.a would need C's `memmove`.
#[tactic(auto, using(base::proofs::Opening::shift_laws))]
fn insert_at(slots: &mut [u64], p: usize, n: usize, v: u64)
    requires { (p ≤ n) × (n < length slots.old) }
    ensures { take (n + 1) slots.new ≡ ins_at p v (take n slots.old) }
{
    let mut x = v;
    for i in p..n {
        let y = slots[i];
        slots[i] = x;
        x = y;
    }
    slots[n] = x;
}

// Puts the slot of a text in row n at index p of the first n, and moves the others up by one.
#[tactic(auto, using(crate::proofs::EnterLaws::slot_small, crate::proofs::EnterLaws::inserted))]
pub(crate) fn insert_text(slots: &mut [u64], p: usize, n: usize, langs: u64, long: usize)
    requires { InsertsText slots.old p n langs long }
    ensures { take (n + 1) slots.new ≡ ins_at p (slot_of langs n long) (take n slots.old) }
{
    insert_at(slots, p, n, packed(langs, n, long));
}

// Enters the text of `long` bytes in the row behind the others; an equal text already there stays as it was: nothing is added to its
// languages.
#[tactic(auto, using(crate::proofs::EnterLaws::enter_laws))]
fn enter(store: &[u8], slots: &mut [u64], count: usize, long: usize, langs: u64) -> usize
    requires { Enters store.now slots.old count long langs }
    ensures { SetIs store.now slots.new result
        (added store.now slots.old count (take long (drop (count * ROW) store.now)) langs) }
{
    let a = count * ROW;
    match find(store, slots, count, &store[a..a + long]) {
        Ok(p) => {
            slots[p] = merged(slots[p], NO_LANGUAGES);
            count
        }
        Err(p) => {
            insert_text(slots, p, count, langs, long);
            count + 1
        }
    }
}

// Copies t into d from index at on. Not by `copy_from_slice`, for which libbm.a would need C's `memmove`.
#[tactic(auto, using(crate::proofs::PutLaws::put_laws))]
pub(crate) fn put(d: &mut [u8], at: usize, t: &[u8])
    requires { at + length t.now ≤ length d.old }
    ensures { d.new ≡ put d.old at t.now }
{
    for j in 0..t.len() {
        d[at + j] = t[j];
    }
}

// Writes the text of a and then b into row n.
#[tactic(auto, using(crate::proofs::AddLaws::write_laws))]
pub(crate) fn write(store: &mut [u8], n: usize, a: &[u8], b: &[u8])
    requires { n * ROW + (length a.now + length b.now) ≤ length store.old }
    ensures { store.new ≡ put store.old (n * ROW) (a.now ++ b.now) }
{
    let at = n * ROW;
    put(store, at, a);
    put(store, at + a.len(), b);
}

// Adds the text of a and then b; an equal text already there stays as it was. Returns how many there are then.
#[tactic(auto, using(crate::proofs::AddLaws::add_laws))]
fn add(store: &mut [u8], slots: &mut [u64], count: usize, a: &[u8], b: &[u8], langs: u64) -> usize
    requires { Enters store.old slots.old count (length a.now + length b.now) langs }
    ensures { SetIs store.new slots.new result
        (added store.old slots.old count (a.now ++ b.now) langs) }
{
    write(store, count, a, b);
    enter(store, slots, count, a.len() + b.len(), langs)
}

// The same in one of the four sets. Never inlined: the copy of a text that its callers make would be joined with the one made here
// to a call of C's `memmove`.
#[inline(never)]
#[tactic(auto, using(crate::proofs::PartLaws::grown))]
pub(crate) fn add_to(
    store: &mut Store,
    slots: &mut Slots,
    to: Target,
    a: &[u8],
    b: &[u8],
    langs: u64,
) -> usize
    requires { AddsTo (arena store.old slots.old) to (length a.now + length b.now) langs }
    ensures { AddedTo (arena store.old slots.old) (arena store.new slots.new)
        to (a.now ++ b.now) langs result }
{
    let set = to.set;
    add(&mut store[set], &mut slots[set], to.count, a, b, langs)
}

// The i-th text of a set.
pub(crate) fn text_of<'a>(store: &'a Store, slots: &Slots, set: usize, i: usize) -> &'a [u8]
    requires { TextIn slots.now set i }
    ensures { result.now ≡ text_in store.now slots.now set i }
{
    row(&store[set], slots[set][i])
}

// The i-th text of a set, copied to the front of d; returns its length.
#[tactic(auto, using(crate::proofs::PartLaws::copy_laws))]
pub(crate) fn copy_text(
    store: &Store,
    slots: &Slots,
    set: usize,
    i: usize,
    d: &mut [u8; ROW],
) -> usize
    requires { TextIn slots.now set i }
    ensures { CopiedIs (text_in store.now slots.now set i) d.new result }
{
    let t = text_of(store, slots, set, i);
    put(d, 0, t);
    t.len()
}

// Its languages.
pub(crate) fn langs_at(slots: &Slots, set: usize, i: usize) -> u64
    requires { TextIn slots.now set i }
    ensures { result ≡ langs_in slots.now set i }
{
    langs_of(slots[set][i])
}

// A set begun with one empty text. Returns how many texts there are.
pub(crate) fn begin(store: &mut Store, slots: &mut Slots, set: usize, langs: u64) -> usize
    requires { Begins set langs }
    ensures { BegunAs (arena store.old slots.old) (arena store.new slots.new) set langs result }
{
    add_to(store, slots, Target { set, count: 0 }, b"", b"", langs)
}
