// Loads a bundle: `load TYPE BUNDLE PACK` reads the bundle file BUNDLE, writes its pack to PACK and prints `0 LENGTH`. Where the
// bundle is refused it prints code, place and file, and PACK stays as it was.
#![tactic(auto)]

mod words;

use loader::Loaded;
use std::fmt::Display;

// How many bytes a bundle has at most, and a pack.
const ROOM: usize = 1048576;

// A byte more than a bundle may have.
const OVER: usize = ROOM + 1;

// Prints a line.
fn print(rt: &HostRuntime, line: impl Display + Drop) {
    if let Err(why) = rt.println(line) {
        program_io::failed(rt, b"load: standard output", why);
    }
}

// Writes a pack to the file of a path, and says so.
fn write(rt: &HostRuntime, path: &[u8], pack: &[u8]) {
    match program_io::write_file(rt, path, pack) {
        Ok(()) => print(rt, format_args!("0 {}", pack.len())),
        Err(why) => words::unwritable(rt, path, why),
    }
}

// Loads a bundle, and writes its pack to the file that argument 3 names or prints its refusal.
fn answer(rt: &HostRuntime, name_type: u32, bundle: &[u8]) {
    let mut pack = program_io::zeros::<ROOM>();
    match loader::load(name_type, bundle, &mut pack) {
        Loaded::Done { length } => {
            let pack = &pack[..length];
            program_io::with_argument(rt, 3, b"load: PACK", |path| write(rt, path, pack));
        }
        Loaded::Refused { why, place, file } => {
            let code = refusals::number_of(why);
            print(rt, format_args!("{code} {place} {file}"));
            program_io::refused(rt);
        }
    }
}

// Loads the bundle of a path.
fn run(rt: &HostRuntime, name_type: u32, path: &[u8]) {
    let mut bundle = program_io::zeros::<OVER>();
    match program_io::read_file(rt, path, &mut bundle) {
        Ok(have) if have <= ROOM => answer(rt, name_type, &bundle[..have]),
        Ok(_) => words::too_large(rt, path),
        Err(broken) => words::unreadable(rt, path, broken.why),
    }
}

fn main(rt: HostRuntime) {
    match program_io::name_type_at(&rt, 1) {
        Some(name_type) if program_io::argument_count(&rt) == 4 => {
            program_io::with_argument(&rt, 2, b"load: BUNDLE", |path| run(&rt, name_type, path));
        }
        _ => words::usage(&rt),
    }
}
