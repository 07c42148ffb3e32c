// Writing what fits, and telling where it ends: so one function both measures an answer and writes it.
#![tactic(auto)]

ghost use Rattle.std.specs.Prelude.{◌≡◌, min};
ghost use mathlib.Core.List.{◌∷◌};
ghost use Rattle.writing.specs.InnerContracts.{Put, cap};

// No slice has more bytes; a place stays at most this.
const CAP: usize = 0x8000_0000_0000_0000;

// Writes b at the place, where there is room, and gives the next place.
pub fn push(out: &mut [u8], at: usize, b: u8) -> usize
    ensures { Put out.old out.new at result (b ∷ mathlib.Core.List.[]) }
{
    if at < out.len() {
        out[at] = b;
    }
    at.min(CAP - 1) + 1
}

// Writes s from the place on, as far as there is room.
#[tactic(auto, using(crate::proofs::Laws::writing_laws))]
pub fn copy(s: &[u8], out: &mut [u8], at: usize) -> usize
    ensures { Put out.old out.new at result s.now }
{
    let mut p = at.min(CAP);
    for b in s {
        p = push(out, p, *b);
    }
    p
}
