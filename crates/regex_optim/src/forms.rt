// Which of the eight forms a context is, and whether it is a box that nothing fits.
ghost use Rattle.std.specs.Prelude.{◌≡◌};
ghost use Rattle.regex_optim.specs.Contexts.{form_in, kind_of, left_form, right_form, empty_box};
ghost use Rattle.regex_optim.specs.Numbers.{form_numbers};
ghost use Rattle.regex_optim.specs.InnerContracts.{box_kind, literal_kind};

use crate::OptimizedRegex;
use crate::boxes::{has_opening, is_boxed, is_empty_box};

#[tactic(auto, using(base::proofs::PickLaws::cases), unfolding(crate::specs::InnerContracts::box_kind))]
fn box_kind(s: bool, e: bool) -> Option<OptimizedRegex>
    ensures { result ≡ box_kind s e }
{
    match (s, e) {
        (true, true) => Some(OptimizedRegex::EqualsChar),
        (true, false) => Some(OptimizedRegex::StartsWithChar),
        (false, true) => Some(OptimizedRegex::EndsWithChar),
        (false, false) => None,
    }
}

#[tactic(auto, using(base::proofs::PickLaws::cases), unfolding(crate::specs::InnerContracts::literal_kind))]
fn literal_kind(n: usize, s: bool, e: bool) -> Option<OptimizedRegex>
    ensures { result ≡ literal_kind n s e }
{
    match (s, e, n) {
        (true, true, 0) => Some(OptimizedRegex::IsEmpty),
        (true, true, _) => Some(OptimizedRegex::Equals),
        (true, false, 0) | (false, true, 0) => Some(OptimizedRegex::AllStringsMatcher),
        (true, false, _) => Some(OptimizedRegex::StartsWith),
        (false, true, _) => Some(OptimizedRegex::EndsWith),
        (false, false, _) => None,
    }
}

// The form of the rest t of a context with these anchors.
#[tactic(auto, using(crate::proofs::Laws::form_laws))]
fn form_in(t: &[u8], s: bool, e: bool) -> Option<OptimizedRegex>
    ensures { result ≡ kind_of (form_in s e t.now) }
{
    if has_opening(t) {
        if is_boxed(t) { box_kind(s, e) } else { None }
    } else {
        literal_kind(t.len(), s, e)
    }
}

// The form of a left context; none where it is outside the forms (15).
#[tactic(auto, using(crate::proofs::Laws::form_laws, crate::proofs::NumberLaws::form_told))]
pub fn left_form(context: &[u8]) -> Option<OptimizedRegex>
    ensures { form_numbers result ≡ form_numbers (kind_of (left_form context.now)) }
{
    let anchored = texts::first_is(context, b'^');
    form_in(texts::without_caret(context), anchored, true)
}

// The form of a right context, likewise.
#[tactic(auto, using(crate::proofs::Laws::form_laws, crate::proofs::NumberLaws::form_told))]
pub fn right_form(context: &[u8]) -> Option<OptimizedRegex>
    ensures { form_numbers result ≡ form_numbers (kind_of (right_form context.now)) }
{
    let anchored = texts::last_is(context, b'$');
    form_in(texts::without_dollar(context), true, anchored)
}

// Whether a left context is an empty box that is not negated.
#[tactic(auto, using(crate::proofs::Laws::part_laws))]
pub fn left_is_empty_box(context: &[u8]) -> bool
    ensures { result ≡ empty_box (left_form context.now) }
{
    is_empty_box(texts::without_caret(context))
}

// Whether a right context is.
#[tactic(auto, using(crate::proofs::Laws::part_laws))]
pub fn right_is_empty_box(context: &[u8]) -> bool
    ensures { result ≡ empty_box (right_form context.now) }
{
    is_empty_box(texts::without_dollar(context))
}
