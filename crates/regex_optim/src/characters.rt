// The first, the last and the only character of a text, and whether a box takes one.
ghost use Rattle.std.specs.Prelude.{◌≡◌};
ghost use Rattle.regex_optim.specs.Contexts.{back_char, last_char, whole_char, first_char, char_fits};

use letters::Step;

// The first character of x.
#[tactic(auto, using(crate::proofs::Laws::char_laws))]
pub(crate) fn first_char(x: &[u8]) -> Option<u32>
    ensures { result ≡ first_char x.now }
{
    match letters::decode(x, 0) {
        Step::Char { code, len: _ } => Some(code),
        Step::Ill | Step::End => None,
    }
}

// The character that the last n bytes of x are.
#[tactic(auto, using(crate::proofs::Laws::char_laws))]
fn back_char(x: &[u8], n: usize) -> Option<u32>
    ensures { result ≡ back_char x.now n }
{
    if x.len() < n {
        return None;
    }
    match letters::decode(x, x.len() - n) {
        Step::Char { code, len } => { if len == n { Some(code) } else { None } }
        Step::Ill | Step::End => None,
    }
}

// The character that x is.
#[tactic(auto, using(crate::proofs::Laws::char_laws))]
pub(crate) fn whole_char(x: &[u8]) -> Option<u32>
    ensures { result ≡ whole_char x.now }
{
    back_char(x, x.len())
}

// The last character of x.
#[tactic(auto, unfolding(crate::specs::Contexts::last_char, crate::specs::Contexts::or_else))]
pub(crate) fn last_char(x: &[u8]) -> Option<u32>
    ensures { result ≡ last_char x.now }
{
    back_char(x, 1)
        .or_else(|| back_char(x, 2))
        .or_else(|| back_char(x, 3))
        .or_else(|| back_char(x, 4))
}

// Whether a box of the characters of l takes the character; where it is negated, yes is false.
#[tactic(auto, using(crate::proofs::Laws::form_laws))]
pub(crate) fn char_fits(l: &[u8], yes: bool, c: Option<u32>) -> bool
    ensures { result ≡ char_fits yes l.now c }
{
    c.is_some_and(|k| texts::has_char(l, k) == yes)
}
