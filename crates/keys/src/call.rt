// The call: settings and languages from the arguments behind PACK.
use beider_morse::{Settings, Start};

// What each name is spelled with.
#[derive(Clone, Copy)]
pub struct Call {
    pub settings: Settings,
    pub start: Start,
}

// The settings where none are given: Generic, approx, no concat, limit 20.
const USUAL: Settings = Settings {
    name_type: 1,
    rule_type: 0,
    concat: 0,
    limit: 20,
};

// The settings that arguments 2 to 5 are.
fn settings_at(rt: &HostRuntime) -> Option<Settings> {
    Some(Settings {
        name_type: program_io::number_at(rt, 2)?,
        rule_type: program_io::number_at(rt, 3)?,
        concat: program_io::number_at(rt, 4)?,
        limit: program_io::number_at(rt, 5)?,
    })
}

// The languages that arguments 6 and 7 give.
fn languages_at(rt: &HostRuntime) -> Option<Start> {
    Some(Start::Given {
        kind: program_io::number_at(rt, 6)?,
        bits: program_io::number_at(rt, 7)?,
    })
}

// The program's call, by how many arguments it has, its own name among them.
pub fn read(rt: &HostRuntime) -> Option<Call> {
    let (settings, start) = match program_io::argument_count(rt) {
        2 => (USUAL, Start::Guessed),
        6 => (settings_at(rt)?, Start::Guessed),
        8 => (settings_at(rt)?, languages_at(rt)?),
        _ => return None,
    };
    Some(Call { settings, start })
}
