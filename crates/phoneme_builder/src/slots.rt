// What a slot of a set holds: the languages of a text, the row where it stands and its length. What an alternative of a table holds:
// its languages, where it starts in its expression and where it ends. Nothing else takes these numbers apart.
ghost use Rattle.std.specs.Prelude.{◌≡◌};
ghost use Rattle.phoneme_builder.specs.BufferContracts.{slot_of, langs_of, first_of, second_of, slot_merged, Packs, Merges};

// The code of no languages: merged into a set, it adds nothing.
pub(crate) const NO_LANGUAGES: u64 = 0;

// What a byte and two bytes can count.
const BYTE: u64 = 256;

const TWO_BYTES: u64 = 65536;

// Languages and two bytes: row and length, or start and end.
pub(crate) fn packed(langs: u64, first: usize, second: usize) -> u64
    requires { Packs langs first second }
    ensures { result ≡ slot_of langs first second }
{
    langs * TWO_BYTES + (first as u64) * BYTE + second as u64
}

// The languages of a slot or of an alternative.
pub(crate) fn langs_of(x: u64) -> u64
    ensures { result ≡ langs_of x }
{
    x / TWO_BYTES
}

// The row of a slot, or where an alternative starts.
pub(crate) fn first_of(x: u64) -> usize
    ensures { result ≡ first_of x }
{
    (x / BYTE % BYTE) as usize
}

// The length of a slot's text, or where an alternative ends.
pub(crate) fn second_of(x: u64) -> usize
    ensures { result ≡ second_of x }
{
    (x % BYTE) as usize
}

// A slot with more languages merged into its own.
#[tactic(auto, using(crate::proofs::SlotLaws::merged_laws))]
pub(crate) fn merged(slot: u64, langs: u64) -> u64
    requires { Merges slot langs }
    ensures { result ≡ slot_merged slot langs }
{
    packed(
        languages::merge_codes(langs_of(slot), langs),
        first_of(slot),
        second_of(slot),
    )
}
