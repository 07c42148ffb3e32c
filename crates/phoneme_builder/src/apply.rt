// Applying a rule (01, Spelling a name, step 7).
ghost use Rattle.std.specs.Prelude.{◌≡◌};
ghost use Rattle.languages.specs.InnerContracts.{codes_narrowed};
ghost use Rattle.phoneme_builder.specs.BufferContracts.{arena, langs_of, withheld, Offers, OfferedTo, RowOffers, RowOffered, TextOffers, TextOffered, Applies, AppliedTo};

use crate::expressions::{Candidate, text_in};
use crate::set::{Between, Excess, ROW, Slots, Store, Target, add_to, copy_text, langs_at};
use crate::slots::{NO_LANGUAGES, langs_of};

// A text with the bytes `more` of an alternative behind it: passed over where nothing is left of its languages, else it enters set `to`.
#[tactic(auto, using(crate::proofs::ApplyLaws::offer_laws))]
fn offer(
    store: &mut Store,
    slots: &mut Slots,
    to: Target,
    text: &[u8],
    langs: u64,
    more: &[u8],
    other: u64,
    limit: usize,
) -> Result<usize, Excess>
    requires { Offers (arena store.old slots.old) to langs other limit }
    ensures { OfferedTo (arena store.old slots.old) (arena store.new slots.new)
        to text.now langs more.now other limit result }
{
    match languages::narrow_codes(langs, other) {
        Some(left) => {
            if ROW < text.len() + more.len() {
                return Err(Excess::TooLong);
            }
            Ok(add_to(store, slots, to, text, more, left))
        }
        None => Ok(to.count),
    }
}

// The languages with which the alternative x is offered to a text with `langs`: none where `before`, the languages of those before it
// with the same text, leave something of them, since one of those has entered then; else its own.
#[tactic(auto, using(crate::proofs::ApplyLaws::withheld_laws))]
fn langs_to_offer(langs: u64, before: u64, x: u64) -> u64
    ensures { result ≡ withheld (codes_narrowed langs before) (langs_of x) }
{
    match languages::narrow_codes(langs, before) {
        Some(_) => NO_LANGUAGES,
        None => langs_of(x),
    }
}

// Under one old text the alternatives in order, until the count reaches the limit.
#[tactic(auto, using(crate::proofs::ApplyLaws::offering_laws))]
fn apply_row(
    store: &mut Store,
    slots: &mut Slots,
    to: Target,
    text: &[u8],
    langs: u64,
    expr: &[u8],
    alts: &[Candidate],
    limit: usize,
) -> Result<usize, Excess>
    requires { RowOffers (arena store.old slots.old) to langs expr.now alts.now limit }
    ensures { RowOffered (arena store.old slots.old) (arena store.new slots.new)
        to text.now langs expr.now alts.now limit result }
{
    let mut count = to.count;
    for candidate in alts {
        if limit <= count {
            return Ok(count);
        }
        let other = langs_to_offer(langs, candidate.before, candidate.number);
        let to = Target { set: to.set, count };
        let more = text_in(expr, candidate.number);
        count = offer(store, slots, to, text, langs, more, other, limit)?;
    }
    Ok(count)
}

// Under the i-th text of set `from` the alternatives, into set `to`.
#[tactic(auto, using(crate::proofs::ApplyLaws::offered_under, crate::proofs::PartLaws::copied_entry))]
fn apply_text(
    store: &mut Store,
    slots: &mut Slots,
    from: usize,
    i: usize,
    to: Target,
    expr: &[u8],
    alts: &[Candidate],
    limit: usize,
) -> Result<usize, Excess>
    requires { TextOffers (arena store.old slots.old) from i to expr.now alts.now limit }
    ensures { TextOffered (arena store.old slots.old) (arena store.new slots.new)
        from i to expr.now alts.now limit result }
{
    let mut row = [0u8; ROW];
    let e = copy_text(store, slots, from, i, &mut row);
    let langs = langs_at(slots, from, i);
    apply_row(store, slots, to, &row[..e], langs, expr, alts, limit)
}

// The old texts in order, under each the alternatives in order, into the other set; when the count reaches the limit, stop.
#[tactic(auto, using(crate::proofs::ApplyLaws::applying_laws))]
pub(crate) fn apply(
    store: &mut Store,
    slots: &mut Slots,
    sets: Between,
    expr: &[u8],
    alts: &[Candidate],
    limit: usize,
) -> Result<usize, Excess>
    requires { Applies (arena store.old slots.old) sets expr.now alts.now limit }
    ensures { AppliedTo (arena store.old slots.old) (arena store.new slots.new)
        sets expr.now alts.now limit result }
{
    let mut count = 0;
    for i in 0..sets.count {
        if limit <= count {
            return Ok(count);
        }
        let to = Target {
            set: sets.to,
            count,
        };
        count = apply_text(store, slots, sets.from, i, to, expr, alts, limit)?;
    }
    Ok(count)
}
