// Makes a bundle: `bundle TYPE DIR OUT` takes the language list of a type from the folder DIR, every file that the list needs and
// every file that these include, and writes them to OUT as a bundle.
#![tactic(auto)]

mod needed;
mod taken;
mod words;

use needed::Folder;
use program_io::Bytes;
use taken::Taken;

// What the names of a type's files begin with.
fn prefix(name_type: u32) -> Option<&'static [u8]> {
    match name_type {
        0 => Some(b"ash"),
        1 => Some(b"gen"),
        2 => Some(b"sep"),
        _ => None,
    }
}

// Writes a bundle to the file of a path.
fn write(rt: &HostRuntime, path: &[u8], bundle: &[u8]) {
    if let Err(why) = program_io::write_file(rt, path, bundle) {
        words::unwritable(rt, path, why);
    }
}

// Makes the bundle of the files of a folder, and writes it to the file that argument 3 names.
fn run(rt: &HostRuntime, dir: &[u8], prefix: &[u8]) {
    let mut taken = Taken::new();
    if (Folder { rt, dir, prefix }).take_all(&mut taken).is_ok() {
        let mut bundle = Bytes::new();
        taken.put_bundle(&mut bundle);
        program_io::with_argument(
            rt,
            3,
            b"bundle: OUT",
            |path| write(rt, path, bundle.as_slice()),
        );
    }
}

fn main(rt: HostRuntime) {
    match program_io::name_type_at(&rt, 1).and_then(prefix) {
        Some(prefix) if program_io::argument_count(&rt) == 4 => {
            program_io::with_argument(&rt, 2, b"bundle: DIR", |dir| run(&rt, dir, prefix));
        }
        _ => words::usage(&rt),
    }
}
