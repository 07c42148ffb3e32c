// What a call is told, and what it works with once that is found good.
ghost use Rattle.std.specs.Prelude.{◌≡◌, true, ◌≤◌, ◌<◌, ◌^◌, min, ltb, length};
ghost use Rattle.base.specs.Pick.{pick};
ghost use Rattle.languages.specs.Names.{name_place};
ghost use Rattle.strings.specs.Reading.{strings_of};
ghost use Rattle.pack.specs.Packs.{any};
ghost use Rattle.languages.specs.declared.sets.LanguageSet.TheVariants.{Any};
ghost use Rattle.engine.specs.Calls.{settings_known, kind_known, have_languages, type_of, start_set};
ghost use Rattle.engine.specs.InnerContracts.{OpenedIs, CallReady, is_guessed, call_for, with_start, started_by};
ghost use Rattle.pack.specs.InnerContracts.{guessed_at};

use languages::LanguageSet;
use pack::Surveyed;
use prefixes::NameType;
use rule_index::Table;

// The settings in the paper's numbers: Ashkenazi 0, Generic 1, Sephardic 2; approx 0, exact 1; concat 0 or 1; the limit.
#[derive(Clone, Copy)]
pub struct Settings {
    pub name_type: u32,
    pub rule_type: u32,
    pub concat: u32,
    pub limit: u32,
}

// The start languages: guessed, or given by kind (0 Any, 1 None, 2 Some) and bits.
#[derive(Clone, Copy)]
pub enum Start {
    Guessed,
    Given { kind: u32, bits: u32 },
}

// The numbers of an accepted pack that spelling works with: how many languages, the place of the guessing section, and which language is `any`.
#[derive(Clone, Copy)]
pub struct PackNumbers {
    pub languages: usize,
    pub guesses: usize,
    pub any: usize,
}

// What each name of a call is asked with; of a refused pack the place of the section at fault.
#[derive(Clone, Copy)]
pub struct Request {
    pub opened: Result<PackNumbers, usize>,
    pub settings: Settings,
    pub start: Start,
}

// What a name is spelled by. The set counts where the name is not spelled afresh, its languages guessed from it.
#[derive(Clone, Copy)]
pub struct Call {
    pub kind: NameType,
    pub rules: usize,
    pub concat: bool,
    pub limit: usize,
    pub languages: usize,
    pub guesses: usize,
    pub any: usize,
    pub fresh: bool,
    pub set: LanguageSet,
}

// The pack's numbers, and the table that its rules are found by; numbered where many names are asked for.
#[tactic(auto, using(crate::proofs::CallLaws::open_laws))]
pub(crate) fn open(pack: &[u8], table: &mut Table, numbered: bool) -> Result<PackNumbers, usize>
    ensures { OpenedIs pack.now table.new result }
{
    match rule_index::index(pack, table, numbered) {
        Surveyed::Accepted { languages, guesses } => Ok(PackNumbers {
            languages,
            guesses,
            any: any_of(&pack[1..guesses]),
        }),
        Surveyed::Refused(place) => Err(place),
    }
}

// Which of the names is `any`.
#[tactic(auto, using(crate::proofs::CallLaws::any_laws, languages::proofs::NumberLaws::listed_one))]
fn any_of(listed: &[u8]) -> usize
    requires { name_place any (strings_of listed.now) < min 32 (length (strings_of listed.now)) }
    ensures { result ≡ name_place any (strings_of listed.now) }
{
    match languages::find_language(listed, b"any") {
        Some(bit) => bit.trailing_zeros() as usize,
        None => 0,
    }
}

// Whether the settings' numbers are known (else 4).
#[tactic(auto, using(base::proofs::PickLaws::cases), unfolding(crate::specs::Calls::settings_known))]
pub(crate) fn are_known(settings: Settings, start: Start) -> bool
    ensures { result ≡ settings_known settings start }
{
    settings.name_type < 3
        && settings.rule_type < 2
        && settings.concat < 2
        && settings.limit <= 256
        && is_known(start)
}

#[tactic(auto, unfolding(crate::specs::Calls::kind_known))]
fn is_known(start: Start) -> bool
    ensures { result ≡ kind_known start }
{
    match start {
        Start::Guessed => true,
        Start::Given { kind, .. } => kind < 3,
    }
}

// Whether each given bit has a language (else 6); only with kind 2 the bits count.
#[tactic(auto, using(crate::proofs::CallLaws::start_laws))]
pub(crate) fn have_languages(start: Start, languages: usize) -> bool
    requires { languages ≤ 32 }
    ensures { result ≡ have_languages languages start }
{
    match start {
        Start::Guessed => true,
        Start::Given { kind, bits } => kind != 2 || are_below(bits, languages),
    }
}

// Whether bits are of the first n languages alone.
#[tactic(auto, using(crate::proofs::CallLaws::shift_below, crate::proofs::CallLaws::all_below))]
fn are_below(bits: u32, n: usize) -> bool
    requires { n ≤ 32 }
    ensures { result ≡ ltb bits (2 ^ n) }
{
    32 <= n || bits < 1u32 << n as u32
}

#[tactic(auto, using(base::proofs::PickLaws::cases), unfolding(crate::specs::Calls::type_of))]
fn type_of(number: u32) -> NameType
    ensures { result ≡ type_of number }
{
    match number {
        0 => NameType::Ashkenazi,
        1 => NameType::Generic,
        _ => NameType::Sephardic,
    }
}

#[tactic(auto, unfolding(crate::specs::InnerContracts::is_guessed))]
fn is_guessed(start: Start) -> bool
    ensures { result ≡ is_guessed start }
{
    matches!(start, Start::Guessed)
}

// The set that is given, if one is.
#[tactic(auto, using(languages::proofs::NumberLaws::set_one, crate::proofs::CallLaws::start_laws))]
fn set_of(start: Start) -> LanguageSet
    ensures { result ≡ start_set start Any }
{
    match start {
        Start::Guessed => LanguageSet::Any,
        Start::Given { kind, bits } => match kind {
            0 => LanguageSet::Any,
            1 => LanguageSet::NoLanguages,
            _ => LanguageSet::SomeLanguages(bits),
        },
    }
}

// The call of known settings on a usable pack.
#[tactic(auto, using(crate::proofs::CallLaws::call_made))]
pub(crate) fn call_of(settings: Settings, start: Start, numbers: PackNumbers) -> Call
    ensures { result ≡ call_for settings start numbers }
{
    Call {
        kind: type_of(settings.name_type),
        rules: settings.rule_type as usize,
        concat: settings.concat == 1,
        limit: settings.limit as usize,
        languages: numbers.languages,
        guesses: numbers.guesses,
        any: numbers.any,
        fresh: is_guessed(start),
        set: set_of(start),
    }
}

// The same call for a name that is spelled afresh.
#[tactic(auto, unfolding(crate::specs::InnerContracts::with_start))]
pub(crate) fn afresh(call: Call) -> Call
    ensures { result ≡ with_start call true call.set }
{
    Call {
        fresh: true,
        ..call
    }
}

// The set that a name starts with.
#[tactic(auto, using(base::proofs::PickLaws::cases, crate::proofs::CallLaws::start_guessed))]
fn start_of(pack: &[u8], table: &Table, call: Call, name: &[u8]) -> LanguageSet
    requires { CallReady pack.now table.now call }
    ensures { result ≡ pick call.fresh (guessed_at pack.now call.guesses call.languages name.now) call.set }
{
    if call.fresh {
        rule_index::guess_languages(pack, table, call.guesses, call.languages, name)
    } else {
        call.set
    }
}

// The same call with that set.
#[tactic(auto, unfolding(crate::specs::InnerContracts::started_by, crate::specs::InnerContracts::with_start))]
pub(crate) fn start_at(pack: &[u8], table: &Table, call: Call, name: &[u8]) -> Call
    requires { CallReady pack.now table.now call }
    ensures { result ≡ started_by call (guessed_at pack.now call.guesses call.languages name.now) }
{
    Call {
        fresh: false,
        set: start_of(pack, table, call, name),
        ..call
    }
}
