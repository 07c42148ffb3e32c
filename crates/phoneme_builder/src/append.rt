// Appending characters that no rule matched (01, Spelling a name, step 8).
ghost use Rattle.phoneme_builder.specs.BufferContracts.{arena, Lengthens, LengthenedTo, BetweenIn, AppendedTo};

use crate::set::{Between, Excess, ROW, Slots, Store, Target, add_to, copy_text, langs_at};

// The i-th text of set `from` with c behind it goes to its place in set `to`.
#[tactic(auto, using(crate::proofs::AppendLaws::lengthen_laws))]
fn lengthen(
    store: &mut Store,
    slots: &mut Slots,
    from: usize,
    i: usize,
    to: Target,
    c: &[u8],
) -> Result<usize, Excess>
    requires { Lengthens (arena store.old slots.old) from i to }
    ensures { LengthenedTo (arena store.old slots.old) (arena store.new slots.new)
        from i to c.now result }
{
    let mut row = [0u8; ROW];
    let e = copy_text(store, slots, from, i, &mut row);
    if ROW < e + c.len() {
        return Err(Excess::TooLong);
    }
    let langs = langs_at(slots, from, i);
    Ok(add_to(store, slots, to, &row[..e], c, langs))
}

// c behind every text, sorted anew in the other set: each goes to its place among those before it, which is mostly behind them.
#[tactic(auto, using(crate::proofs::AppendLaws::appending_laws))]
pub(crate) fn append(
    store: &mut Store,
    slots: &mut Slots,
    sets: Between,
    c: &[u8],
) -> Result<usize, Excess>
    requires { BetweenIn (arena store.old slots.old) sets }
    ensures { AppendedTo (arena store.old slots.old) (arena store.new slots.new)
        sets c.now result }
{
    let mut count = 0;
    for i in 0..sets.count {
        let to = Target {
            set: sets.to,
            count,
        };
        count = lengthen(store, slots, sets.from, i, to, c)?;
    }
    Ok(count)
}
