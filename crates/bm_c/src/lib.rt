// The static library for C, libbm.a: each function is the one of crate bm of the same name, and says the same. A slice crosses as
// a pointer and a length (docs/c/bm.h).
#![tactic(auto)]

ghost use Rattle.loader.specs.Loading.{load_of, written};
ghost use Rattle.engine.specs.Calls.{call_of};
ghost use Rattle.engine.specs.declared.call.Start.TheVariants.{Guessed, Given};
ghost use Rattle.bm.specs.Flat.{settings_of, start_of, CheckFlat, SpellFlat, LinesFlat, LoadFlat};

// The pack of a bundle.
#[unsafe(no_mangle)]
pub extern "C" fn bm_load(name_type: u32, bundle: &[u8], out: &mut [u8], tail: &mut [u64]) -> u32
    ensures { LoadFlat (written (load_of name_type bundle.now))
        out.old out.new tail.old tail.new result }
{
    bm::bm_load(name_type, bundle, out, tail)
}

// Whether this is a pack.
#[unsafe(no_mangle)]
pub extern "C" fn bm_check(pack: &[u8], tail: &mut [u64]) -> u32
    ensures { CheckFlat pack.now tail.old tail.new result }
{
    bm::bm_check(pack, tail)
}

// A name's key, its languages guessed.
#[unsafe(no_mangle)]
pub extern "C" fn bm_spell(
    name_type: u32,
    rule_type: u32,
    concat: u32,
    limit: u32,
    pack: &[u8],
    name: &[u8],
    out: &mut [u8],
    tail: &mut [u64],
) -> u32
    ensures { SpellFlat (call_of (settings_of name_type rule_type concat limit) Guessed pack.now name.now)
        out.old out.new tail.old tail.new result }
{
    bm::bm_spell(name_type, rule_type, concat, limit, pack, name, out, tail)
}

// The same with given languages.
#[unsafe(no_mangle)]
pub extern "C" fn bm_spell_given(
    name_type: u32,
    rule_type: u32,
    concat: u32,
    limit: u32,
    kind: u32,
    bits: u32,
    pack: &[u8],
    name: &[u8],
    out: &mut [u8],
    tail: &mut [u64],
) -> u32
    ensures { SpellFlat (call_of (settings_of name_type rule_type concat limit) (Given kind bits) pack.now name.now)
        out.old out.new tail.old tail.new result }
{
    bm::bm_spell_given(
        name_type, rule_type, concat, limit, kind, bits, pack, name, out, tail,
    )
}

// The lines of a block of names.
#[unsafe(no_mangle)]
pub extern "C" fn bm_spell_lines(
    name_type: u32,
    rule_type: u32,
    concat: u32,
    limit: u32,
    given: u32,
    kind: u32,
    bits: u32,
    pack: &[u8],
    block: &[u8],
    out: &mut [u8],
    tail: &mut [u64],
) -> u32
    ensures { LinesFlat (call_of (settings_of name_type rule_type concat limit) (start_of given kind bits) pack.now) block.now
        out.old out.new tail.old tail.new result }
{
    bm::bm_spell_lines(
        name_type, rule_type, concat, limit, given, kind, bits, pack, block, out, tail,
    )
}
