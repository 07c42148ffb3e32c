// The numbered rules of a table: of each its place in the pack and its marks, by which it is mostly passed over.
ghost use Rattle.std.specs.Prelude.{◌≡◌, ◌<◌, true, eqb, length};
ghost use Rattle.base.specs.Pick.{pick};
ghost use Rattle.rule_index.specs.InnerContracts.{numbered_in, lead_of, behind_bits, MarksAre, FrontIs, tried_by};

use crate::rows::{BEFORE, BEHIND, LEADS, PLACES, Table, noted_at, put_at};

// What a rule is passed over by: the first two bytes of its pattern as one number, and the bits of the bytes that may stand before the
// place and behind its first byte.
#[derive(Clone, Copy)]
pub(crate) struct Marks {
    pub(crate) lead: usize,
    pub(crate) before: u64,
    pub(crate) behind: u64,
}

// What a word has at a place: the byte there, it and the next as one number, and the bits of the bytes before and behind it.
#[derive(Clone, Copy)]
pub(crate) struct Front {
    pub(crate) one: usize,
    pub(crate) two: usize,
    pub(crate) before: u64,
    pub(crate) behind: u64,
}

// The place of a rule and its marks stored for its number.
#[tactic(auto, using(crate::proofs::CellLaws::put_laws))]
pub(crate) fn number_rule(table: &mut Table, number: usize, place: usize, marks: Marks)
    requires { number < 4096 }
    ensures { table.new ≡ numbered_in table.old number place marks }
{
    put_at(table, PLACES, number, place);
    put_at(table, LEADS, number, marks.lead);
    put_at(table, BEFORE, number, marks.before as usize);
    put_at(table, BEHIND, number, marks.behind as usize);
}

// The first two bytes of a text as one number.
fn lead_of(t: &[u8]) -> usize
    ensures { result ≡ lead_of t.now }
{
    (strings::byte_at(t, 0) + 256 * strings::byte_at(t, 1)) as usize
}

// The bits of the bytes that may stand behind the first byte of a pattern: by the right context where it has no other.
#[tactic(auto, using(base::proofs::PickLaws::cases), unfolding(crate::specs::InnerContracts::behind_bits))]
fn behind_bits(pattern: &[u8], right: &[u8]) -> u64
    ensures { result ≡ behind_bits pattern.now right.now }
{
    if pattern.len() == 1 {
        regex_optim::right_bits(right)
    } else {
        regex_optim::ALL_BITS
    }
}

// The marks of a rule.
pub(crate) fn marks_of(pattern: &[u8], left: &[u8], right: &[u8]) -> Marks
    ensures { MarksAre pattern.now left.now right.now result }
{
    Marks {
        lead: lead_of(pattern),
        before: regex_optim::left_bits(left),
        behind: behind_bits(pattern, right),
    }
}

// What a word has at a place.
#[tactic(auto, using(crate::proofs::MatchLaws::front_laws))]
pub(crate) fn front_of(word: &[u8], place: usize) -> Front
    requires { place < length word.now }
    ensures { FrontIs word.now place result }
{
    let rest = &word[place..];
    Front {
        one: strings::byte_at(rest, 0) as usize,
        two: lead_of(rest),
        before: texts::bit_of(texts::last_byte(&word[..place])),
        behind: texts::bit_of(texts::first_byte(&word[place + 1..])),
    }
}

// Whether a pattern with these first two bytes may stand there; the second is 0, which no pattern has, where there is only one.
#[tactic(auto, using(base::proofs::PickLaws::cases))]
fn may_lead(lead: usize, front: Front) -> bool
    ensures { result ≡ pick (eqb lead front.one) true (eqb lead front.two) }
{
    lead == front.one || lead == front.two
}

// Whether the rule of a number is tried there: most are passed over by their marks.
#[tactic(auto, using(crate::proofs::MatchLaws::tried_laws))]
pub(crate) fn is_tried(table: &Table, number: usize, front: Front) -> bool
    requires { number < 4096 }
    ensures { result ≡ tried_by table.now number front.one front.two front.before front.behind }
{
    may_lead(noted_at(table, LEADS, number), front)
        && texts::has_bits(noted_at(table, BEFORE, number) as u64, front.before)
        && texts::has_bits(noted_at(table, BEHIND, number) as u64, front.behind)
}
