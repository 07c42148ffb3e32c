// Prints the keys of names: `keys PACK [TYPE KIND CONCAT LIMIT [SETKIND BITS]]` reads the pack file PACK and then names,
// one a line, on standard input, and prints a line for each.
#![tactic(auto)]

mod call;
mod failure;
mod input;

ghost use Rattle.std.specs.Prelude.{◌≤◌, length};
ghost use Rattle.keys.specs.InnerContracts.{Within};

use beider_morse::Lines;
use call::Call;
use input::Input;
use std::io;

// How long the lines of a block may be together; a line that is longer than this is refused with 9.
const ROOM: usize = 1048576;

// The lines of the whole names of a block, as many as fit. All that this program uses of the face are two bounds.
fn spell_block(call: Call, pack: &[u8], block: &[u8], out: &mut [u8]) -> Lines
    ensures { Within result (length block.now) (length out.new) }
{
    beider_morse::spell_lines(call.settings, call.start, pack, block, out)
}

// Writes lines out.
fn print(rt: &HostRuntime, lines: &[u8]) -> io::Result<()> {
    rt.write_all(lines).inspect_err(|why| program_io::failed(rt, b"keys: standard output", *why))
}

// Answers the whole lines that wait, or reads on where none does. Where lines cannot be written, or have no room, the work is over.
fn turn(rt: &HostRuntime, call: Call, pack: &[u8], input: &mut Input, out: &mut [u8]) {
    let block = input.waiting();
    if !block.contains(&b'\n') {
        input.read_on(rt);
        return;
    }
    match spell_block(call, pack, block, out) {
        Lines::Done { read, written } => match print(rt, &out[..written]) {
            Ok(()) => input.pass(read),
            Err(_) => input.end(),
        },
        Lines::NoRoom { needed: _ } => {
            failure::no_room(rt);
            input.end();
        }
    }
}

// Answers every name of the input. The turns are counted, up to a number that no run uses up, since a proved loop ends.
fn serve(rt: &HostRuntime, call: Call, pack: &[u8]) {
    let mut input = Input::new();
    let mut out = program_io::zeros::<ROOM>();
    for _ in 0..u64::MAX {
        if !input.goes_on() {
            break;
        }
        turn(rt, call, pack, &mut input, &mut out);
    }
}

// Answers the names by a pack, unless the pack file is longer than a pack may be.
fn answer(rt: &HostRuntime, call: Call, pack: &[u8]) {
    if pack.len() <= 49152 {
        serve(rt, call, pack);
    } else {
        let _ = print(rt, b"5 49152\n");
    }
}

// Answers the names by the pack file of a path.
fn run(rt: &HostRuntime, call: Call, path: &[u8]) {
    // a byte more than a pack may have
    let mut pack = [0u8; 49153];
    match program_io::read_file(rt, path, &mut pack) {
        Ok(have) => answer(rt, call, &pack[..have]),
        Err(broken) => failure::unreadable(rt, path, broken.why),
    }
}

fn main(rt: HostRuntime) {
    match call::read(&rt) {
        Some(call) => program_io::with_argument(&rt, 1, b"keys: PACK", |path| run(&rt, call, path)),
        None => failure::usage(&rt),
    }
}
