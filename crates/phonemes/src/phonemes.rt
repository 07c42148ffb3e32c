// Phoneme expressions: whether one is well formed, and its alternatives.
ghost use Rattle.std.specs.Prelude.{◌≡◌, true, [], ◌∷◌, ◌+◌, ◌^◌, ◌≤◌, ◌<◌, length};
ghost use Rattle.languages.specs.Numbers.{listed_numbers};
ghost use Rattle.phonemes.specs.Numbers.{expression_numbers};
ghost use Rattle.phonemes.specs.Expressions.{bar, opening, plus, cut_at, inside, formed_piece, box_of, names_mask, piece_mask, set_of, checked_of};
ghost use Rattle.base.specs.Pick.{and};
ghost use Rattle.texts.specs.Parts.{place_of};
ghost use Rattle.phonemes.specs.InnerContracts.{cut_end, has_extra, listed_piece, judged_pieces, expression_told, piece_from, parts_from, first_from, alternative_from};

use crate::answers::{Alternative, ExpressionFault};
use languages::LanguageSet;

// What is between the round brackets.
#[tactic(auto, using(crate::proofs::ExprLaws::piece_laws))]
fn between(e: &[u8]) -> &[u8]
    ensures { result.now ≡ inside e.now }
{
    let n = e.len();
    if n < 2 { &e[..0] } else { &e[1..n - 1] }
}

// Where the part that starts at `from` ends: at the next b, or with t.
#[tactic(auto, using(crate::proofs::CutLaws::cut_laws))]
fn cut_end(t: &[u8], b: u8, from: usize) -> usize
    requires { from ≤ length t.now }
    ensures { result ≡ cut_end b t.now from }
{
    from + texts::find_byte(&t[from..], b)
}

// The bits of names joined by `+`; none where one of them is not listed.
#[tactic(auto, using(crate::proofs::CutLaws::naming_laws, languages::proofs::NumberLaws::listed_told, languages::proofs::NumberLaws::listed_one))]
pub fn names_mask(names: &[u8], joined: &[u8]) -> Option<u32>
    ensures { listed_numbers result ≡ listed_numbers (names_mask names.now (cut_at plus joined.now)) }
{
    let mut mask: u32 = 0;
    for name in joined.split(|&b| b == b'+') {
        mask |= languages::find_language(names, name)?;
    }
    Some(mask)
}

// An alternative of an expression, and where its first `[` stands, at its end where it has none.
#[derive(Clone, Copy)]
struct ExpressionPiece<'a> {
    bytes: &'a [u8],
    bracket: usize,
    ghost at_first: { bracket ≡ place_of opening bytes.now },
}

impl<'a> ExpressionPiece<'a> {
    fn of(bytes: &'a [u8]) -> ExpressionPiece<'a>
        ensures { result.bytes.now ≡ bytes.now }
    {
        let bracket = texts::find_byte(bytes, b'[');
        ExpressionPiece { bytes, bracket }
    }

    // Whether its first `[`, if it has one, is closed at its very end.
    #[tactic(auto, using(crate::proofs::ExprLaws::piece_laws))]
    fn is_formed(&self) -> bool
        ensures { result ≡ formed_piece self.now.bytes.now }
    {
        self.bytes.len() <= self.bracket || texts::last_is(self.bytes, b']')
    }

    // What is between its first `[` and its last byte.
    #[tactic(auto, using(crate::proofs::ExprLaws::piece_laws))]
    fn joined_names(&self) -> &'a [u8]
        requires { self.now.bracket < length self.now.bytes.now }
        ensures { result.now ≡ box_of self.now.bytes.now }
    {
        let n = self.bytes.len();
        if n <= self.bracket + 1 {
            &self.bytes[..0]
        } else {
            &self.bytes[self.bracket + 1..n - 1]
        }
    }

    // The bits of its names, none where it has none.
    #[tactic(auto, using(languages::proofs::NumberLaws::listed_one, crate::proofs::ExprLaws::piece_laws))]
    fn mask(&self, names: &[u8]) -> Option<u32>
        ensures { result ≡ piece_mask names.now self.now.bytes.now }
    {
        if self.bracket < self.bytes.len() {
            names_mask(names, self.joined_names())
        } else {
            Some(0)
        }
    }

    // Whether its names are all listed.
    #[tactic(auto, using(crate::proofs::ExprLaws::piece_laws))]
    fn is_listed(&self, names: &[u8]) -> bool
        ensures { result ≡ listed_piece names.now self.now.bytes.now }
    {
        self.mask(names).is_some()
    }

    // Its set.
    #[tactic(auto, using(crate::proofs::ExprLaws::piece_laws))]
    fn set(&self, names: &[u8]) -> LanguageSet
        ensures { result ≡ set_of names.now self.now.bytes.now }
    {
        if self.bracket < self.bytes.len() {
            LanguageSet::SomeLanguages(self.mask(names).unwrap_or(0))
        } else {
            LanguageSet::Any
        }
    }
}

// Whether one more empty alternative is added at the end.
#[tactic(auto, unfolding(crate::specs::InnerContracts::has_extra, base::specs::Pick::pick))]
fn has_extra(t: &[u8]) -> bool
    ensures { result ≡ has_extra t.now }
{
    texts::first_is(t, b'|') || texts::last_is(t, b'|')
}

#[tactic(auto, using(base::proofs::PickLaws::cases), unfolding(crate::specs::InnerContracts::expression_told))]
fn told_of(count: usize, known: bool) -> Result<usize, ExpressionFault>
    ensures { result ≡ expression_told count known }
{
    if known {
        Ok(count)
    } else {
        Err(ExpressionFault::UnlistedName)
    }
}

// The parts of t between the bars, with `more` alternatives behind them.
#[tactic(auto, using(crate::proofs::CutLaws::judging_laws))]
fn judge(names: &[u8], t: &[u8], more: usize) -> Result<usize, ExpressionFault>
    requires { more ≤ 1 }
    ensures { result ≡ judged_pieces names.now more true (cut_at bar t.now) }
{
    let mut count = more;
    let mut known = true;
    for part in t.split(|&b| b == b'|') {
        let piece = ExpressionPiece::of(part);
        if !piece.is_formed() {
            return Err(ExpressionFault::Malformed);
        }
        known &= piece.is_listed(names);
        count += 1;
    }
    told_of(count, known)
}

#[tactic(auto, using(crate::proofs::ExprLaws::check_laws))]
fn check_single(names: &[u8], e: &[u8]) -> Result<usize, ExpressionFault>
    ensures { result ≡ judged_pieces names.now 0 true (e.now ∷ []) }
{
    let piece = ExpressionPiece::of(e);
    if piece.is_formed() {
        told_of(1, piece.is_listed(names))
    } else {
        Err(ExpressionFault::Malformed)
    }
}

// Whether e is a well-formed expression whose names are all in `names`, strings behind their length bytes.
#[tactic(auto, using(crate::proofs::ExprLaws::check_laws, crate::proofs::NumberLaws::expression_told_lem))]
pub fn check_expression(e: &[u8], names: &[u8]) -> Result<usize, ExpressionFault>
    ensures { expression_numbers result ≡ expression_numbers (checked_of names.now e.now) }
{
    if texts::first_is(e, b'(') {
        if texts::last_is(e, b')') {
            let t = between(e);
            if has_extra(t) {
                judge(names, t, 1)
            } else {
                judge(names, t, 0)
            }
        } else {
            Err(ExpressionFault::Malformed)
        }
    } else {
        check_single(names, e)
    }
}

// The alternative whose bytes are a, of an expression in which it starts at `start`, and where the next one is asked for.
#[tactic(auto, using(crate::proofs::ExprLaws::piece_laws))]
fn piece_from(names: &[u8], a: &[u8], start: usize, next: usize) -> Alternative
    requires { start + length a.now < 2 ^ 64 }
    ensures { result ≡ piece_from names.now a.now start next }
{
    let piece = ExpressionPiece::of(a);
    Alternative::At {
        start,
        end: start + piece.bracket,
        set: piece.set(names),
        next,
    }
}

// The alternative from a place of t on, which is what stands between round brackets; the one that is added at the end stands behind t.
#[tactic(auto, using(crate::proofs::AltLaws::part_laws))]
fn part_from(names: &[u8], t: &[u8], from: usize) -> Alternative
    ensures { result ≡ first_from (from + 1) from names.now (parts_from t.now from) }
{
    let n = t.len();
    if from <= n {
        let to = cut_end(t, b'|', from);
        return piece_from(names, &t[from..to], from + 1, to + 1);
    }
    if from == n + 1 && has_extra(t) {
        return piece_from(names, &t[..0], from + 1, from + 1);
    }
    Alternative::Nothing
}

// The alternative from a place on, the first one from place 0: each says from where on the next one is asked for.
#[tactic(auto, using(crate::proofs::AltLaws::alternative_laws))]
pub fn alternative(e: &[u8], names: &[u8], from: usize) -> Alternative
    ensures { result ≡ alternative_from names.now e.now from }
{
    if texts::first_is(e, b'(') {
        part_from(names, between(e), from)
    } else if from == 0 {
        piece_from(names, e, 0, e.len() + 1)
    } else {
        Alternative::Nothing
    }
}
