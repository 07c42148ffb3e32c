// Whether a context fits the text before or after a place.
ghost use Rattle.std.specs.Prelude.{◌≡◌, false};
ghost use Rattle.base.specs.Pick.{pick};
ghost use Rattle.texts.specs.Parts.{has, opening};
ghost use Rattle.regex_optim.specs.Contexts.{form_in, left_form, right_form, fits};
ghost use Rattle.regex_optim.specs.InnerContracts.{box_char, literal_fits, box_fits};

use crate::boxes::{box_inner, has_opening};
use crate::characters::{char_fits, first_char, last_char, whole_char};

// The character that a box with these anchors looks at.
#[tactic(auto, using(base::proofs::PickLaws::cases), unfolding(crate::specs::InnerContracts::box_char))]
fn box_char(s: bool, e: bool, x: &[u8]) -> Option<u32>
    ensures { result ≡ box_char s e x.now }
{
    match (s, e) {
        (true, true) => whole_char(x),
        (true, false) => first_char(x),
        (false, true) => last_char(x),
        (false, false) => None,
    }
}

// Whether the box with this inside and these anchors fits x.
#[tactic(auto, using(crate::proofs::Laws::form_laws))]
fn box_fits(inner: &[u8], s: bool, e: bool, x: &[u8]) -> bool
    ensures { result ≡ box_fits inner.now s e x.now }
{
    let negated = texts::first_is(inner, b'^');
    let l = texts::without_caret(inner);
    char_fits(l, !negated, box_char(s, e, x))
}

// Whether the literal t with these anchors fits x.
#[tactic(auto, using(base::proofs::PickLaws::cases), unfolding(crate::specs::InnerContracts::literal_fits))]
fn literal_fits(t: &[u8], s: bool, e: bool, x: &[u8]) -> bool
    ensures { result ≡ literal_fits t.now s e x.now }
{
    match (s, e) {
        (true, true) => letters::same(t, x),
        (true, false) => texts::starts_with(x, t),
        (false, true) => texts::ends_with(x, t),
        (false, false) => false,
    }
}

// Whether the box with this inside fits x and is one: it has no other `[`, which is looked for last.
#[tactic(auto, using(crate::proofs::Laws::form_laws))]
fn only_box_fits(inner: &[u8], s: bool, e: bool, x: &[u8]) -> bool
    ensures { result ≡ pick (has opening inner.now) false (box_fits inner.now s e x.now) }
{
    box_fits(inner, s, e, x) && !has_opening(inner)
}

// Whether the rest t of a context with these anchors fits x. A box or a literal is compared first, which mostly ends at once, and only
// then looked through for a `[` that puts it outside the forms.
#[tactic(auto, using(crate::proofs::Laws::form_laws))]
fn fits_in(t: &[u8], s: bool, e: bool, x: &[u8]) -> bool
    ensures { result ≡ fits (form_in s e t.now) x.now }
{
    if texts::first_is(t, b'[') {
        texts::last_is(t, b']') && only_box_fits(box_inner(t), s, e, x)
    } else {
        literal_fits(t, s, e, x) && !has_opening(t)
    }
}

// Whether a left context fits the text before a place; one outside the forms never does.
#[tactic(auto, using(crate::proofs::Laws::form_laws))]
pub fn left_fits(context: &[u8], before: &[u8]) -> bool
    ensures { result ≡ fits (left_form context.now) before.now }
{
    if context.is_empty() {
        return true;
    }
    let anchored = texts::first_is(context, b'^');
    fits_in(texts::without_caret(context), anchored, true, before)
}

// Whether a right context fits the text after a pattern; one outside the forms never does.
#[tactic(auto, using(crate::proofs::Laws::form_laws))]
pub fn right_fits(context: &[u8], after: &[u8]) -> bool
    ensures { result ≡ fits (right_form context.now) after.now }
{
    if context.is_empty() {
        return true;
    }
    let anchored = texts::last_is(context, b'$');
    fits_in(texts::without_dollar(context), true, anchored, after)
}
