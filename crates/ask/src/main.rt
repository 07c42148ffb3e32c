// Answers cases: for each line of standard input that is a case, a line of what the port says of it, and `?` for any
// other line. A case is a word and its fields, parted by blanks.
#![tactic(auto)]

mod loading_cases;
mod spelling_cases;
mod words_cases;

use cases::{Case, Command, GIVEN, Input, LINE, Output, Said, Word};
use program_io::Bytes;

// How many bytes a pack or a bundle has at most that is kept.
const ROOM: usize = 98304;

// The pack and the bundle that are kept.
#[derive(Drop)]
struct Kept {
    pack: Bytes<ROOM>,
    bundle: Bytes<ROOM>,
}

// What is said of a case, with the pack and the bundle that are kept.
fn said_of<'a>(case: Case<'a>, made: &mut [u8], kept: &Kept) -> Said<'a> {
    let pack = kept.pack.as_slice();
    match case.command {
        Command::Word => words_cases::word(case, made, pack),
        Command::Spell => spelling_cases::spell(case, made, pack),
        Command::Given => spelling_cases::spell_given(case, made, pack),
        Command::Lines => spelling_cases::spell_lines(case, made, pack),
        Command::Load => loading_cases::load(case, made, kept.bundle.as_slice()),
        _ => case.said(made, pack),
    }
}

// Keeps bytes in the place of those that were kept, where there is room.
fn keep(bytes: &[u8], kept: &mut Bytes<ROOM>) {
    if bytes.len() <= ROOM {
        kept.clear();
        kept.push(bytes);
    }
}

// Answers a case, and keeps the pack or the bundle that it gives.
fn answer(case: Case, made: &mut [u8], kept: &mut Kept, out: &mut Output) {
    out.say(said_of(case, made, kept), made);
    match case.command {
        Command::Pack => keep(case.bytes(0), &mut kept.pack),
        Command::Bundle => keep(case.bytes(0), &mut kept.bundle),
        _ => {}
    }
}

// Answers every line of the input. The turns are counted, up to a number that no run uses up, since a proved loop ends.
fn serve(input: &mut Input, kept: &mut Kept, out: &mut Output) {
    let mut line = Bytes::<LINE>::new();
    let mut given = Bytes::<GIVEN>::new();
    let mut made = program_io::zeros::<GIVEN>();
    for _ in 0..u64::MAX {
        let Some(line) = input.next(&mut line) else {
            break;
        };
        match cases::read(line, &mut given) {
            Some(case) => answer(case, &mut made, kept, out),
            None => out.say(Said::Word(Word::NoCase), &made),
        }
    }
    out.flush();
}

fn main(rt: HostRuntime) {
    let mut kept = Kept {
        pack: Bytes::new(),
        bundle: Bytes::new(),
    };
    serve(&mut Input::new(&rt), &mut kept, &mut Output::new(&rt));
}
