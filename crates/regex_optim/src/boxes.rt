// A box of characters: whether a text is one, its inside, and whether it has one.
ghost use Rattle.std.specs.Prelude.{◌≡◌};
ghost use Rattle.texts.specs.Parts.{has, opening};
ghost use Rattle.regex_optim.specs.Contexts.{box_inner, boxed};
ghost use Rattle.regex_optim.specs.InnerContracts.{empty_rest};

// t without its first and last byte.
#[tactic(auto, using(crate::proofs::Laws::part_laws))]
pub(crate) fn box_inner(t: &[u8]) -> &[u8]
    ensures { result.now ≡ box_inner t.now }
{
    match t {
        [_, inner @ .., _] => inner,
        _ => &[],
    }
}

// Whether a `[` stands in t.
#[tactic(auto, using(texts::proofs::Chars::has_by))]
pub(crate) fn has_opening(t: &[u8]) -> bool
    ensures { result ≡ has opening t.now }
{
    t.contains(&b'[')
}

// Whether t is a box: `[` first, `]` last and no other `[`.
#[tactic(auto, using(crate::proofs::Laws::part_laws))]
pub(crate) fn is_boxed(t: &[u8]) -> bool
    ensures { result ≡ boxed t.now }
{
    texts::first_is(t, b'[') && texts::last_is(t, b']') && !has_opening(box_inner(t))
}

// Whether t is `[]`. Most contexts have more bytes, so those are not looked through for another `[`.
#[tactic(auto, using(crate::proofs::Laws::part_laws))]
pub(crate) fn is_empty_box(t: &[u8]) -> bool
    ensures { result ≡ empty_rest t.now }
{
    box_inner(t).is_empty() && is_boxed(t)
}
