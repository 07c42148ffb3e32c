// Bundles of files: whether any bytes are one, and where the file of a name stands ("Bundle and pack").
#![tactic(auto)]

ghost use Rattle.std.specs.Prelude.{◌≡◌};
ghost use Rattle.std.specs.Option.{option_copied};
ghost use Rattle.bundles.specs.Bundles.{read_bundle, well_formed};
ghost use Rattle.bundles.specs.PlaceContracts.{file_numbers, file_at};
ghost use Rattle.bundles.specs.InnerContracts.{follows_in, EntryIs};

use std::cmp::Ordering;
use strings::{Number, Span};

// A file by its number in the bundle, from 0, and where its content stands.
#[derive(Clone, Copy)]
pub struct FileAt {
    pub number: usize,
    pub start: usize,
    pub end: usize,
}

// A file by its places: its name stands from name to name_end, its content from start to end.
#[derive(Clone, Copy)]
struct Entry {
    name: usize,
    name_end: usize,
    start: usize,
    end: usize,
}

// The file at a place, or none where bytes run out.
#[tactic(auto, using(crate::proofs::Laws::entry_laws))]
fn entry_at(bundle: &[u8], at: usize) -> Option<Entry>
    ensures { EntryIs bundle.now at result }
{
    let Span {
        start: name,
        end: name_end,
    } = strings::string_at(bundle, at)?;
    let Number { value, next: start } = strings::mask_at(bundle, name_end)?;
    let n = value as usize;
    if bundle.len() - start < n {
        return None;
    }
    Some(Entry {
        name,
        name_end,
        start,
        end: start + n,
    })
}

// Whether `name` stands behind the one before it; the first has none before it.
#[tactic(auto, unfolding(crate::specs::InnerContracts::follows_in, letters::specs::Order::is_less))]
fn follows(before: Option<&[u8]>, name: &[u8]) -> bool
    ensures { result ≡ follows_in (option_copied before.entry) name.now }
{
    match before {
        None => true,
        Some(before) => letters::compare(before, name) == Ordering::Less,
    }
}

// Whether any bytes are a bundle (10 otherwise).
#[tactic(auto, using(crate::proofs::Laws::check_laws))]
pub fn check_bundle(bundle: &[u8]) -> bool
    ensures { result ≡ well_formed (read_bundle bundle.now) }
{
    let Some(Number { value, next }) = strings::count_at(bundle, 0) else {
        return false;
    };
    let mut at = next;
    let mut before: Option<&[u8]> = None;
    for _ in 0..value {
        let Some(file) = entry_at(bundle, at) else {
            return false;
        };
        let name = &bundle[file.name..file.name_end];
        if !follows(before, name) {
            return false;
        }
        before = Some(name);
        at = file.end;
    }
    at == bundle.len()
}

// The first file of a name among those of `bundle`, as far as its bytes go; none where no file has it.
#[tactic(auto, using(crate::proofs::Laws::seek_laws))]
pub fn find_file(bundle: &[u8], wanted: &[u8]) -> Option<FileAt>
    ensures { file_numbers result ≡ file_at bundle.now wanted.now }
{
    let Number { value, next } = strings::count_at(bundle, 0)?;
    let mut at = next;
    for number in 0..value as usize {
        let file = entry_at(bundle, at)?;
        if letters::same(&bundle[file.name..file.name_end], wanted) {
            return Some(FileAt {
                number,
                start: file.start,
                end: file.end,
            });
        }
        at = file.end;
    }
    None
}
