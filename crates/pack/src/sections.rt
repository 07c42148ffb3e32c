// The check of a pack, section by section ("Sections: languages, guessing rules, list count, each list, the end").
ghost use Rattle.std.specs.Prelude.{◌≡◌, ◌≤◌, length, set};
ghost use Rattle.pack.specs.Packs.{read_names, names_good, pack_of, verdict_of};
ghost use Rattle.pack.specs.Numbers.{checked_numbers};
ghost use Rattle.pack.specs.PlaceContracts.{SurveyIs};
ghost use Rattle.pack.specs.InnerContracts.{end_in, follows, ListsAre, RestIs};

use crate::rows::{COLUMNS, Row};
use std::cmp::Ordering;
use strings::Span;

// Accepted (0), or refused (5) with the first byte of the section at fault.
#[derive(Clone, Copy)]
pub enum Checked {
    Accepted,
    Refused(usize),
}

// The same, and of an accepted pack the number of its languages and the place of its guessing section.
#[derive(Clone, Copy)]
pub enum Surveyed {
    Accepted { languages: usize, guesses: usize },
    Refused(usize),
}

// Whether `name` is a language name behind the one before it.
#[tactic(auto, using(crate::proofs::SectionLaws::follows_laws))]
fn follows_name(before: &[u8], name: &[u8]) -> bool
    ensures { result ≡ follows before.now name.now }
{
    letters::compare(before, name) == Ordering::Less && languages::is_language_name(name)
}

// Where the names end: at most 32, "strictly increasing, with `any`".
#[tactic(auto, using(crate::proofs::SectionLaws::naming_laws))]
fn names_section(pack: &[u8]) -> Option<usize>
    ensures { result ≡ end_in pack.now names_good (read_names pack.now) }
{
    let count = *pack.first()?;
    if 32 < count {
        return None;
    }
    let mut before = &pack[..0];
    let mut at: usize = 1;
    let mut met = false;
    for _ in 0..count {
        let Span { start, end } = strings::string_at(pack, at)?;
        let name = &pack[start..end];
        if !follows_name(before, name) {
            return None;
        }
        met = met || letters::same(name, b"any");
        before = name;
        at = end;
    }
    met.then_some(at)
}

// A value stored as number k of `list`, where it goes so far.
#[tactic(auto, using(crate::proofs::SectionLaws::put_out))]
fn put<T: Copy>(list: &mut [T], k: usize, value: T)
    ensures { list.new ≡ set list.old k value }
{
    if k < list.len() {
        list[k] = value;
    }
}

// Where `count` lists end, with the place and the row of each that is good stored in `places` and `rows`; or the place of the first at fault.
#[tactic(auto, using(crate::proofs::SectionLaws::found_laws))]
fn lists_section(
    pack: &[u8],
    start: usize,
    count: u32,
    names: &[u8],
    places: &mut [usize],
    rows: &mut [Row],
) -> Result<usize, usize>
    requires { start ≤ length pack.now }
    ensures { ListsAre pack.now names.now count start places.old rows.old result
        places.new rows.new }
{
    let mut at = start;
    for k in 0..count as usize {
        let mut row = [0usize; COLUMNS];
        let end = crate::rules::list_section(pack, at, names, &mut row).ok_or(at)?;
        put(places, k, at);
        put(rows, k, row);
        at = end;
    }
    Ok(at)
}

// The list count at a place, the lists behind it, and the end; or the place at fault.
#[tactic(auto, using(crate::proofs::SectionLaws::rest_laws))]
fn rest_section(
    pack: &[u8],
    at: usize,
    languages: usize,
    names: &[u8],
    places: &mut [usize],
    rows: &mut [Row],
) -> Result<(), usize>
    requires { (at ≤ length pack.now) × (languages ≤ 32) }
    ensures { RestIs pack.now names.now languages at places.old rows.old result
        places.new rows.new }
{
    if pack.len() <= at {
        return Err(at);
    }
    let count = strings::byte_at(pack, at);
    if count as usize != 3 * languages + 2 {
        return Err(at);
    }
    let end = lists_section(pack, at + 1, count, names, places, rows)?;
    if end == pack.len() { Ok(()) } else { Err(end) }
}

// The verdict on `pack`; where it is accepted, its languages and the place of its guessing section, so that the names stand
// in `pack[1..guesses]`. `places` gets the place of each list that is found good, in order, and `rows` its row, as far as they go.
#[tactic(auto, using(crate::proofs::SectionLaws::survey_laws))]
pub fn survey(pack: &[u8], places: &mut [usize], rows: &mut [Row]) -> Surveyed
    ensures { SurveyIs pack.now places.old rows.old result places.new rows.new }
{
    let Some(guesses) = names_section(pack) else {
        return Surveyed::Refused(0);
    };
    let languages = strings::byte_at(pack, 0) as usize;
    let Some(counted) = crate::guessing::guess_section(pack, guesses, languages) else {
        return Surveyed::Refused(guesses);
    };
    match rest_section(pack, counted, languages, &pack[1..guesses], places, rows) {
        Ok(()) => Surveyed::Accepted { languages, guesses },
        Err(place) => Surveyed::Refused(place),
    }
}

// Whether any bytes are a pack, or the first byte of the section at fault (5).
#[tactic(auto, using(crate::proofs::NumberLaws::checked_told, crate::proofs::SectionLaws::check_laws))]
pub fn check_pack(pack: &[u8]) -> Checked
    ensures { checked_numbers result ≡ checked_numbers (verdict_of (pack_of pack.now)) }
{
    match survey(pack, &mut [], &mut []) {
        Surveyed::Accepted { .. } => Checked::Accepted,
        Surveyed::Refused(place) => Checked::Refused(place),
    }
}
