// What goes wrong, in words on standard error.
use program_io::say;
use std::io::Error;

// Says that the bundle file cannot be read.
pub fn unreadable(rt: &HostRuntime, path: &[u8], why: Error) {
    say(rt, b"load: cannot read ");
    program_io::failed(rt, path, why);
}

// Says that the pack cannot be written.
pub fn unwritable(rt: &HostRuntime, path: &[u8], why: Error) {
    say(rt, b"load: cannot write ");
    program_io::failed(rt, path, why);
}

// Says that the bundle file is too large.
pub fn too_large(rt: &HostRuntime, path: &[u8]) {
    say(rt, b"load: too large, over 1 MiB: ");
    say(rt, path);
    say(rt, b"\n");
    program_io::mark(rt);
}

// Says how the program is called.
pub fn usage(rt: &HostRuntime) {
    say(rt, b"usage: load TYPE BUNDLE PACK\n");
    say(
        rt,
        b"TYPE: 0 or ash, 1 or gen, 2 or sep. BUNDLE: the bundle to load. PACK: the pack to write.\n",
    );
    program_io::mark(rt);
}
