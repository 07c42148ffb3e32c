// The face: rule files loaded, a pack checked, a name spelled, names a line each. What is refused, and with which number, is the paper's
// table. Crate bm is the same for C.
#![tactic(auto)]

ghost use Rattle.std.specs.Prelude.{◌≡◌};
ghost use Rattle.pack.specs.Numbers.{checked_numbers};
ghost use Rattle.pack.specs.Packs.{pack_of, verdict_of};
ghost use Rattle.loader.specs.Loading.{LoadIs};
ghost use Rattle.engine.specs.Calls.{call_of, SpellIs};
ghost use Rattle.engine.specs.Lines.{LinesIs};
ghost use Rattle.engine.specs.declared.call.Start.TheVariants.{Guessed, Given};

pub use engine::{Lines, Settings, Spelled, Start};
pub use loader::Loaded;
pub use pack::Checked;
pub use refusals::Refusal;

// The pack of a bundle of rule files: its length, or the refusal.
pub fn load(name_type: u32, bundle: &[u8], out: &mut [u8]) -> Loaded
    ensures { LoadIs name_type bundle.now out.old result out.new }
{
    loader::load(name_type, bundle, out)
}

// Whether bytes are a pack, or the place of the section at fault (5).
pub fn check(pack: &[u8]) -> Checked
    ensures { checked_numbers result ≡ checked_numbers (verdict_of (pack_of pack.now)) }
{
    pack::check_pack(pack)
}

// The key of a name, its languages guessed.
pub fn spell(settings: Settings, pack: &[u8], name: &[u8], out: &mut [u8]) -> Spelled
    ensures { SpellIs (call_of settings Guessed pack.now name.now) out.old result out.new }
{
    engine::spell(settings, Start::Guessed, pack, name, out)
}

// The key of a name with given languages: kind 0 Any, 1 None, 2 Some with the bits.
pub fn spell_given(
    settings: Settings,
    kind: u32,
    bits: u32,
    pack: &[u8],
    name: &[u8],
    out: &mut [u8],
) -> Spelled
    ensures { SpellIs (call_of settings (Given kind bits) pack.now name.now) out.old result out.new }
{
    engine::spell(settings, Start::Given { kind, bits }, pack, name, out)
}

// The lines that the program prints for a block of names, each ended by LF: as many as fit; or 9, where the first does not.
pub fn spell_lines(
    settings: Settings,
    start: Start,
    pack: &[u8],
    block: &[u8],
    out: &mut [u8],
) -> Lines
    ensures { LinesIs (call_of settings start pack.now) block.now out.old result out.new }
{
    engine::spell_lines(settings, start, pack, block, out)
}
