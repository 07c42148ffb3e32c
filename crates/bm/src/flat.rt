// The face for C, which crate bm_c exports: numbers by value and lent slices. An answer is its code; `tail` takes the other
// numbers. Where `tail` has no room for them, the answer is 255 and nothing is written.
ghost use Rattle.std.specs.Prelude.{◌≡◌, ◌≤◌, length};
ghost use Rattle.loader.specs.Loading.{load_of, written};
ghost use Rattle.engine.specs.Calls.{call_of};
ghost use Rattle.engine.specs.declared.call.Start.TheVariants.{Guessed, Given};
ghost use Rattle.bm.specs.Flat.{settings_of, start_of, CheckFlat, SpellFlat, LinesFlat, LoadFlat};
ghost use Rattle.bm.specs.InnerContracts.{TailIs};

use engine::{Lines, Settings, Spelled, Start};
use loader::Loaded;
use pack::Checked;

// The code of an answer; `tail` takes its place (or how many bytes were written) and its flag.
fn number(s: Spelled, tail: &mut [u64]) -> u32
    requires { 2 ≤ length tail.old }
    ensures { TailIs s tail.old tail.new result }
{
    match s {
        Spelled::Done { written, flag } => {
            tail[0] = written as u64;
            tail[1] = flag as u64;
            0
        }
        Spelled::Refused { why, place } => {
            tail[0] = place as u64;
            tail[1] = 0;
            refusals::number_of(why) as u32
        }
    }
}

// The pack of a bundle: the code; `tail` takes bytes written or place, and the file's number.
pub fn bm_load(name_type: u32, bundle: &[u8], out: &mut [u8], tail: &mut [u64]) -> u32
    ensures { LoadFlat (written (load_of name_type bundle.now))
        out.old out.new tail.old tail.new result }
{
    if tail.len() < 2 {
        return 255;
    }
    match beider_morse::load(name_type, bundle, out) {
        Loaded::Done { length } => {
            tail[0] = length as u64;
            tail[1] = 0;
            0
        }
        Loaded::Refused { why, place, file } => {
            tail[0] = place as u64;
            tail[1] = file as u64;
            refusals::number_of(why) as u32
        }
    }
}

// 0, or 5; `tail` takes the place.
pub fn bm_check(pack: &[u8], tail: &mut [u64]) -> u32
    ensures { CheckFlat pack.now tail.old tail.new result }
{
    if tail.len() < 1 {
        return 255;
    }
    match beider_morse::check(pack) {
        Checked::Accepted => {
            tail[0] = 0;
            0
        }
        Checked::Refused(at) => {
            tail[0] = at as u64;
            5
        }
    }
}

// A name's key, its languages guessed: the code; `tail` takes bytes written or place, and the flag.
pub fn bm_spell(
    name_type: u32,
    rule_type: u32,
    concat: u32,
    limit: u32,
    pack: &[u8],
    name: &[u8],
    out: &mut [u8],
    tail: &mut [u64],
) -> u32
    ensures { SpellFlat (call_of (settings_of name_type rule_type concat limit) Guessed pack.now name.now)
        out.old out.new tail.old tail.new result }
{
    if tail.len() < 2 {
        return 255;
    }
    let settings = Settings {
        name_type,
        rule_type,
        concat,
        limit,
    };
    let s = engine::spell(settings, Start::Guessed, pack, name, out);
    number(s, tail)
}

// The same with given languages.
pub fn bm_spell_given(
    name_type: u32,
    rule_type: u32,
    concat: u32,
    limit: u32,
    kind: u32,
    bits: u32,
    pack: &[u8],
    name: &[u8],
    out: &mut [u8],
    tail: &mut [u64],
) -> u32
    ensures { SpellFlat (call_of (settings_of name_type rule_type concat limit) (Given kind bits) pack.now name.now)
        out.old out.new tail.old tail.new result }
{
    if tail.len() < 2 {
        return 255;
    }
    let settings = Settings {
        name_type,
        rule_type,
        concat,
        limit,
    };
    let s = engine::spell(settings, Start::Given { kind, bits }, pack, name, out);
    number(s, tail)
}

// The start languages by number: 0 guessed, else given.
#[tactic(auto, using(base::proofs::PickLaws::cases), unfolding(crate::specs::Flat::start_of))]
fn start_of(given: u32, kind: u32, bits: u32) -> Start
    ensures { result ≡ start_of given kind bits }
{
    if given == 0 {
        Start::Guessed
    } else {
        Start::Given { kind, bits }
    }
}

// The lines of a block of names: 0, and `tail` takes how much was read and how much written; or 9, and `tail` takes the length that the
// first line needs. `given` 0 guesses, else kind and bits count.
pub fn bm_spell_lines(
    name_type: u32,
    rule_type: u32,
    concat: u32,
    limit: u32,
    given: u32,
    kind: u32,
    bits: u32,
    pack: &[u8],
    block: &[u8],
    out: &mut [u8],
    tail: &mut [u64],
) -> u32
    ensures { LinesFlat (call_of (settings_of name_type rule_type concat limit) (start_of given kind bits) pack.now) block.now
        out.old out.new tail.old tail.new result }
{
    if tail.len() < 2 {
        return 255;
    }
    let settings = Settings {
        name_type,
        rule_type,
        concat,
        limit,
    };
    match engine::spell_lines(settings, start_of(given, kind, bits), pack, block, out) {
        Lines::Done { read, written } => {
            tail[0] = read as u64;
            tail[1] = written as u64;
            0
        }
        Lines::NoRoom { needed } => {
            tail[0] = needed as u64;
            tail[1] = 0;
            9
        }
    }
}
