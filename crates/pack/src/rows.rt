// The row of a list: for each kind of byte where the first rule stands whose pattern begins with such a byte, and where the last one ends.
ghost use Rattle.std.specs.Prelude.{◌≡◌, ◌+◌, ◌%◌, ◌≤◌, length, get_or};
ghost use Rattle.pack.specs.PlaceContracts.{NUMBERS, noted_in};

// Bytes are told apart by their lower six bits.
pub const KINDS: usize = 64;

// The numbers of a row: where the first rule of each kind stands, and behind those where the last one ends, 0 where there is none.
pub const COLUMNS: usize = 2 * KINDS;

pub type Row = [usize; COLUMNS];

// Places stand behind so many numbers, so that whoever numbers rules can tell the two apart.
pub const NUMBERS: usize = 4096;

// A rule from one number or place to the next noted in a row: the first whose pattern begins with a byte of this kind, or the last so far.
#[tactic(auto, using(base::proofs::PickLaws::cases), unfolding(crate::specs::PlaceContracts::noted_in))]
pub fn note_rule(row: &mut Row, byte: u32, at: usize, end: usize)
    ensures { row.new ≡ noted_in row.old (byte % 64) at end }
{
    let kind = byte as usize % KINDS;
    if row[kind + KINDS] == 0 {
        row[kind] = at;
    }
    row[kind + KINDS] = end;
}

// The rule from one place of `pack` to another noted in a row; its pattern stands behind its length byte.
#[tactic(auto, using(crate::proofs::RuleLaws::noted_place))]
pub(crate) fn note_place(pack: &[u8], row: &mut Row, at: usize, end: usize)
    requires { (at ≤ length pack.now) × (end ≤ length pack.now) }
    ensures { row.new ≡ noted_in row.old (get_or pack.now (at + 1) 0 % 64) (NUMBERS + at) (NUMBERS + end) }
{
    let byte = strings::byte_at(pack, at + 1);
    note_rule(row, byte, NUMBERS + at, NUMBERS + end);
}
