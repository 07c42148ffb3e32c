// The bytes of a pack, written as far as they fit. `proofs/Laws` shows that reading them gives the pack back.
#![tactic(auto)]

ghost use Rattle.writing.specs.InnerContracts.{Put};
ghost use Rattle.pack_bytes.specs.Bytes.{count_bytes, mask_bytes};
ghost use Rattle.pack_bytes.specs.InnerContracts.{text_put};

// Writes a string behind its length byte, from a place on.
#[tactic(auto, using(crate::proofs::PutLaws::put_laws))]
pub fn put_text(s: &[u8], out: &mut [u8], at: usize) -> usize
    ensures { Put out.old out.new at result (text_put s.now) }
{
    let p = writing::push(out, at, (s.len() % 256) as u8);
    writing::copy(s, out, p)
}

// Writes a number of 2 bytes, the high one first.
#[tactic(auto, using(crate::proofs::PutLaws::put_laws))]
pub fn put_count(n: u16, out: &mut [u8], at: usize) -> usize
    ensures { Put out.old out.new at result (count_bytes n) }
{
    writing::copy(&n.to_be_bytes(), out, at)
}

// Writes a number of 4 bytes, the highest first.
#[tactic(auto, using(crate::proofs::PutLaws::put_laws))]
pub fn put_mask(mask: u32, out: &mut [u8], at: usize) -> usize
    ensures { Put out.old out.new at result (mask_bytes mask) }
{
    writing::copy(&mask.to_be_bytes(), out, at)
}
