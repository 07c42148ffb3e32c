// The signature of a text: of each of its bytes one of 64 bits.
ghost use Rattle.std.specs.Prelude.{◌≡◌};
ghost use Rattle.texts.specs.Signatures.{bit_of, signature_of, has_bits};

// Of a byte one of 64 bits.
#[tactic(auto, using(crate::proofs::SignatureLaws::signing_laws))]
pub fn bit_of(b: u8) -> u64
    ensures { result ≡ bit_of b }
{
    1 << (b % 64)
}

// The signature of a text: the bits of its bytes.
#[tactic(auto, using(crate::proofs::SignatureLaws::signing_laws))]
pub fn signature(s: &[u8]) -> u64
    ensures { result ≡ signature_of s.now }
{
    let mut bits = 0;
    for b in s {
        bits |= bit_of(*b);
    }
    bits
}

// Whether bits have all of the required ones.
#[tactic(auto, unfolding(crate::specs::Signatures::has_bits))]
pub fn has_bits(bits: u64, required: u64) -> bool
    ensures { result ≡ has_bits bits required }
{
    bits & required == required
}
