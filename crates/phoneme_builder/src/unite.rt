// Uniting the results of a final pass (01, Spelling a name, step 8).
ghost use Rattle.phoneme_builder.specs.BufferContracts.{InsertsRow, RowInserted, Unites, UnitedRow, arena, UnitesTo, UnitedTo, UnitesText, UnitedText, UnitesSet, UnitedSet};

use crate::set::{
    Between, Excess, MOST, ROW, Slots, Store, Target, copy_text, find, insert_text, langs_at, write,
};
use crate::slots::merged;

// A text written into the row behind the others, and its slot put at index p.
fn insert_row(store: &mut [u8], slots: &mut [u64], p: usize, count: usize, text: &[u8], langs: u64)
    requires { InsertsRow store.old slots.old p count text.now langs }
    ensures { RowInserted store.old slots.old p count text.now langs
        store.new slots.new }
{
    write(store, count, text, b"");
    insert_text(slots, p, count, langs, text.len());
}

// A text with its languages: an equal text takes its old set merged with `worked`, the set of the text being worked on.
#[tactic(auto, using(crate::proofs::UniteLaws::unite_laws))]
fn unite_row(
    store: &mut [u8],
    slots: &mut [u64],
    count: usize,
    text: &[u8],
    langs: u64,
    worked: u64,
) -> Result<usize, Excess>
    requires { Unites store.old slots.old count text.now langs worked }
    ensures { UnitedRow store.old slots.old count text.now langs worked result
        store.new slots.new }
{
    match find(store, slots, count, text) {
        Ok(p) => {
            slots[p] = merged(slots[p], worked);
            Ok(count)
        }
        Err(p) => {
            if MOST <= count {
                return Err(Excess::TooMany);
            }
            insert_row(store, slots, p, count, text, langs);
            Ok(count + 1)
        }
    }
}

// The same into one of the four sets.
#[tactic(auto, using(crate::proofs::UniteLaws::united_to))]
fn unite_to(
    store: &mut Store,
    slots: &mut Slots,
    to: Target,
    text: &[u8],
    langs: u64,
    worked: u64,
) -> Result<usize, Excess>
    requires { UnitesTo (arena store.old slots.old) to text.now langs worked }
    ensures { UnitedTo (arena store.old slots.old) (arena store.new slots.new)
        to text.now langs worked result }
{
    let set = to.set;
    unite_row(
        &mut store[set],
        &mut slots[set],
        to.count,
        text,
        langs,
        worked,
    )
}

// The i-th text of set `from` into set `to`.
#[tactic(auto, using(crate::proofs::PartLaws::copied_fits, crate::proofs::UniteLaws::united_text, crate::proofs::PartLaws::copied_entry))]
fn unite_text(
    store: &mut Store,
    slots: &mut Slots,
    from: usize,
    i: usize,
    to: Target,
    worked: u64,
) -> Result<usize, Excess>
    requires { UnitesText (arena store.old slots.old) from i to worked }
    ensures { UnitedText (arena store.old slots.old) (arena store.new slots.new)
        from i to worked result }
{
    let mut row = [0u8; ROW];
    let e = copy_text(store, slots, from, i, &mut row);
    let langs = langs_at(slots, from, i);
    unite_to(store, slots, to, &row[..e], langs, worked)
}

// The texts of one text's final run, in order into the result so far of n texts; `worked` is the set of that text.
#[tactic(auto, using(crate::proofs::UniteLaws::uniting_laws))]
pub(crate) fn unite(
    store: &mut Store,
    slots: &mut Slots,
    sets: Between,
    n: usize,
    worked: u64,
) -> Result<usize, Excess>
    requires { UnitesSet (arena store.old slots.old) sets n worked }
    ensures { UnitedSet (arena store.old slots.old) (arena store.new slots.new)
        sets n worked result }
{
    let mut count = n;
    for i in 0..sets.count {
        let to = Target {
            set: sets.to,
            count,
        };
        count = unite_text(store, slots, sets.from, i, to, worked)?;
    }
    Ok(count)
}
