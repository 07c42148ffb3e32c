// The cases of the crate beider_morse: a name or a block of names spelled into a buffer of so many bytes, each 165.
use beider_morse::{Lines, Settings, Spelled, Start};
use cases::{Case, Said, Word, lent};

// The largest buffer that is lent.
const ROOM: usize = 4096;

fn settings_of(case: Case) -> Settings {
    Settings {
        name_type: case.number(0),
        rule_type: case.number(1),
        concat: case.number(2),
        limit: case.number(3),
    }
}

// How large a buffer is lent, by field i.
fn room_of(case: Case, i: usize) -> Option<usize> {
    let room = case.number(i) as usize;
    if room <= ROOM { Some(room) } else { None }
}

fn answered(s: Spelled, room: usize) -> Said<'static> {
    match s {
        Spelled::Done { written, flag } => {
            Said::Line([Some(0), Some(usize::from(flag)), Some(written)], room)
        }
        Spelled::Refused { why, place } => {
            let code = usize::from(refusals::number_of(why));
            Said::Line([Some(code), Some(place), None], room)
        }
    }
}

// `spell T K C L ROOM HEX`: by guessing.
pub fn spell(case: Case, made: &mut [u8], kept: &[u8]) -> Said<'static> {
    let Some(room) = room_of(case, 4) else {
        return Said::Word(Word::NoCase);
    };
    let out = lent(made, room);
    answered(
        beider_morse::spell(settings_of(case), kept, case.bytes(5), out),
        room,
    )
}

// `given T K C L SETKIND BITS ROOM HEX`: with given languages.
pub fn spell_given(case: Case, made: &mut [u8], kept: &[u8]) -> Said<'static> {
    let Some(room) = room_of(case, 6) else {
        return Said::Word(Word::NoCase);
    };
    let (kind, bits) = (case.number(4), case.number(5));
    let out = lent(made, room);
    let s = beider_morse::spell_given(settings_of(case), kind, bits, kept, case.bytes(7), out);
    answered(s, room)
}

fn taken(l: Lines, room: usize) -> Said<'static> {
    match l {
        Lines::Done { read, written } => Said::Line([Some(0), Some(read), Some(written)], room),
        Lines::NoRoom { needed } => Said::Line([Some(9), Some(needed), None], room),
    }
}

// `lines T K C L ROOM HEX`: a block of names, by guessing: 0, how much was read and how much written, or 9 and the length needed; then
// the buffer.
pub fn spell_lines(case: Case, made: &mut [u8], kept: &[u8]) -> Said<'static> {
    let Some(room) = room_of(case, 4) else {
        return Said::Word(Word::NoCase);
    };
    let out = lent(made, room);
    let l = beider_morse::spell_lines(settings_of(case), Start::Guessed, kept, case.bytes(5), out);
    taken(l, room)
}
