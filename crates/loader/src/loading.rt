// A bundle loaded: checked and made first, and written only where it fits.
ghost use Rattle.std.specs.Prelude.{◌≡◌, List, ◌++◌, ℕ, ◌≤◌, min, length};
ghost use Rattle.bundles.specs.PlaceContracts.{file_at};
ghost use Rattle.rule_lists.specs.Lists.{type_prefix};
ghost use Rattle.loader.specs.Loading.{languages_part, lang_part, names_of, guess_file, pack_from, written, AnswerIs, LoadIs};
ghost use Rattle.loader.specs.InnerContracts.{type_numbered, NamesRead, guesses_bytes, packed_of};
ghost use Rattle.bundles.specs.InnerContracts.{files_of};
ghost use Rattle.rule_lists.specs.InnerContracts.{WritesTo};

use crate::language_list::NameList;
use bundles::FileAt;
use prefixes::NameType;
use refusals::Refusal;
use rule_lists::{Refused, Written};

// The length of the buffer that a pack is made in; that of the real rules takes half of it.
const OWN: usize = 65536;

// The pack's length, or the refusal: which, its line (the length needed for 9), and the file's number in the bundle.
#[derive(Clone, Copy)]
pub enum Loaded {
    Done {
        length: usize,
    },
    Refused {
        why: Refusal,
        place: usize,
        file: usize,
    },
}

// The name type of a setting's number, where it is known.
#[tactic(auto, using(crate::proofs::LoadingLaws::types))]
fn kind_of(name_type: u32) -> Option<NameType>
    ensures { result ≡ type_numbered name_type }
{
    match name_type {
        0 => Some(NameType::Ashkenazi),
        1 => Some(NameType::Generic),
        2 => Some(NameType::Sephardic),
        _ => None,
    }
}

// The language list of a type.
#[tactic(auto, unfolding(rule_lists::specs::Lists::type_prefix))]
fn languages_file(kind: NameType, bundle: &[u8]) -> Option<FileAt>
    ensures { Rattle.bundles.specs.PlaceContracts.file_numbers result ≡ file_at bundle.now (type_prefix kind ++ languages_part) }
{
    match kind {
        NameType::Ashkenazi => bundles::find_file(bundle, b"ash_languages"),
        NameType::Generic => bundles::find_file(bundle, b"gen_languages"),
        NameType::Sephardic => bundles::find_file(bundle, b"sep_languages"),
    }
}

// The guessing file of a type.
#[tactic(auto, unfolding(rule_lists::specs::Lists::type_prefix))]
fn guessing_file(kind: NameType, bundle: &[u8]) -> Option<FileAt>
    ensures { Rattle.bundles.specs.PlaceContracts.file_numbers result ≡ file_at bundle.now (type_prefix kind ++ lang_part) }
{
    match kind {
        NameType::Ashkenazi => bundles::find_file(bundle, b"ash_lang"),
        NameType::Generic => bundles::find_file(bundle, b"gen_lang"),
        NameType::Sephardic => bundles::find_file(bundle, b"sep_lang"),
    }
}

// The names of a type's languages, each behind its length byte.
#[tactic(auto, using(crate::proofs::LoadingLaws::names_loaded))]
fn load_names(kind: NameType, bundle: &[u8], names: &mut [u8]) -> Result<NameList, Refused>
    requires { length names.old ≡ 832 }
    ensures { NamesRead (names_of kind (files_of bundle.now)) result names.new }
{
    match languages_file(kind, bundle) {
        Some(FileAt { number, start, end }) => {
            crate::language_list::read_names(&bundle[start..end], number, names)
        }
        None => Err(Refused {
            why: Refusal::FileMissing,
            line: 0,
            file: 0,
        }),
    }
}

// Writes what fits of a type's guessing rules, at most 4,096, behind their count, which is known and written last.
#[tactic(auto, using(crate::proofs::LoadingLaws::guessed_laws))]
fn load_guesses(
    kind: NameType,
    bundle: &[u8],
    names: &[u8],
    out: &mut [u8],
    at: usize,
) -> Result<usize, Refused>
    ensures { WritesTo guesses_bytes (guess_file kind (files_of bundle.now) names.now) out.old out.new at result }
{
    match guessing_file(kind, bundle) {
        Some(FileAt { number, start, end }) => {
            let p = pack_bytes::put_count(0, out, at);
            let part = crate::guesses::write_guesses(&bundle[start..end], number, names, out, p)?;
            if 4096 < part.count {
                return Err(Refused {
                    why: Refusal::TooMuch,
                    line: 0,
                    file: 0,
                });
            }
            pack_bytes::put_count(part.count as u16, out, at);
            Ok(part.end)
        }
        None => Err(Refused {
            why: Refusal::FileMissing,
            line: 0,
            file: 0,
        }),
    }
}

// Writes what fits of the pack.
#[tactic(auto, using(crate::proofs::LoadingLaws::packs))]
fn write_pack(
    kind: NameType,
    bundle: &[u8],
    names: &[u8],
    languages: usize,
    out: &mut [u8],
) -> Result<usize, Refused>
    requires { languages ≤ 32 }
    ensures { WritesTo (λ (bytes : List ℕ). bytes) (packed_of kind (files_of bundle.now) names.now languages)
        out.old out.new 0 result }
{
    let p = writing::push(out, 0, languages as u8);
    let q = writing::copy(names, out, p);
    let end = load_guesses(kind, bundle, names, out, q)?;
    let lists = writing::push(out, end, (3 * languages + 2) as u8);
    match rule_lists::write_lists(kind, bundle, names, out, lists) {
        Written::Done { at } => Ok(at),
        Written::Refused { why, line, file } => Err(Refused { why, line, file }),
    }
}

// The pack of a bundle, written where it fits. Most packs are made in a buffer of this call's own and copied; a larger one is
// made once more, in `out`.
#[tactic(auto, using(crate::proofs::LoadingLaws::answers))]
fn load_pack(
    kind: NameType,
    bundle: &[u8],
    names: &[u8],
    languages: usize,
    out: &mut [u8],
) -> Loaded
    requires { languages ≤ 32 }
    ensures { AnswerIs (packed_of kind (files_of bundle.now) names.now languages) out.old result out.new }
{
    let mut own = [0u8; OWN];
    match write_pack(kind, bundle, names, languages, &mut own) {
        Ok(length) => {
            if out.len() < length {
                return Loaded::Refused {
                    why: Refusal::NoRoom,
                    place: length.min(4294967295),
                    file: 0,
                };
            }
            if length <= OWN {
                writing::copy(&own[0..length], out, 0);
                return Loaded::Done { length };
            }
            let _ = write_pack(kind, bundle, names, languages, out);
            Loaded::Done { length }
        }
        Err(Refused { why, line, file }) => Loaded::Refused {
            why,
            place: line,
            file,
        },
    }
}

// The bundle of a type, once it is well formed.
#[tactic(auto, using(crate::proofs::LoadingLaws::files))]
fn load_files(kind: NameType, bundle: &[u8], out: &mut [u8]) -> Loaded
    ensures { AnswerIs (written (pack_from kind (files_of bundle.now))) out.old result out.new }
{
    let mut names = [0u8; 832];
    match load_names(kind, bundle, &mut names) {
        Ok(list) => load_pack(kind, bundle, &names[0..list.len], list.count, out),
        Err(Refused { why, line, file }) => Loaded::Refused {
            why,
            place: line,
            file,
        },
    }
}

// Loads the rule files of a type from any bytes. A refusal leaves `out` as it was, and a success the bytes behind the pack.
#[tactic(auto, using(crate::proofs::LoadingLaws::loading))]
pub fn load(name_type: u32, bundle: &[u8], out: &mut [u8]) -> Loaded
    ensures { LoadIs name_type bundle.now out.old result out.new }
{
    match kind_of(name_type) {
        Some(kind) => {
            if bundles::check_bundle(bundle) {
                load_files(kind, bundle, out)
            } else {
                Loaded::Refused {
                    why: Refusal::BundleBroken,
                    place: 0,
                    file: 0,
                }
            }
        }
        None => Loaded::Refused {
            why: Refusal::SettingUnknown,
            place: 0,
            file: 0,
        },
    }
}
