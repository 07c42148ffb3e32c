// What goes wrong, in words on standard error.
use program_io::say;
use std::io::Error;

// Says that a file was left out, and why.
fn left_out(rt: &HostRuntime, name: &[u8], why: &[u8]) {
    say(rt, b"bundle: left out: ");
    say(rt, name);
    say(rt, why);
}

// Says that the folder has no file of a name. Loading judges whether it has to.
pub fn missing(rt: &HostRuntime, name: &[u8]) {
    left_out(rt, name, b".txt is not in the folder\n");
}

// Says that an include names what no file of a folder is named.
pub fn unnamed(rt: &HostRuntime, name: &[u8]) {
    left_out(rt, name, b": not a file's name\n");
}

// Says that an include names a file that cannot be opened, whether or not the folder has it.
pub fn unopened(rt: &HostRuntime, name: &[u8]) {
    left_out(rt, name, b": not a name in UTF-8\n");
}

// Says that there is no language list.
pub fn no_list(rt: &HostRuntime, dir: &[u8]) {
    say(rt, b"bundle: no language list in ");
    say(rt, dir);
    say(rt, b"\n");
    program_io::mark(rt);
}

// Says that a file cannot be read.
pub fn unreadable(rt: &HostRuntime, path: &[u8], why: Error) {
    say(rt, b"bundle: cannot read ");
    program_io::failed(rt, path, why);
}

// Says that the bundle cannot be written.
pub fn unwritable(rt: &HostRuntime, path: &[u8], why: Error) {
    say(rt, b"bundle: cannot write ");
    program_io::failed(rt, path, why);
}

// Says that a file would make the bundle too large.
pub fn too_large(rt: &HostRuntime, path: &[u8]) {
    say(rt, b"bundle: too large, over 1 MiB with ");
    say(rt, path);
    say(rt, b"\n");
    program_io::mark(rt);
}

// Says that a file would be the 513th.
pub fn too_many(rt: &HostRuntime, path: &[u8]) {
    say(rt, b"bundle: too many files, over 512 with ");
    say(rt, path);
    say(rt, b"\n");
    program_io::mark(rt);
}

// Says how the program is called.
pub fn usage(rt: &HostRuntime) {
    say(rt, b"usage: bundle TYPE DIR OUT\n");
    say(
        rt,
        b"TYPE: 0 or ash, 1 or gen, 2 or sep. DIR: the folder of the rule files. OUT: the bundle to write.\n",
    );
    program_io::mark(rt);
}
