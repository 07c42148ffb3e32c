// What goes wrong, in words on standard error.
use program_io::say;
use std::io::Error;

// Says that the pack file cannot be read.
pub fn unreadable(rt: &HostRuntime, path: &[u8], why: Error) {
    say(rt, b"keys: cannot read the pack file ");
    program_io::failed(rt, path, why);
}

// Says that a line is longer than the buffer for lines.
pub fn no_room(rt: &HostRuntime) {
    say(rt, b"keys: no room for a line\n");
    program_io::mark(rt);
}

// Says how the program is called.
pub fn usage(rt: &HostRuntime) {
    say(
        rt,
        b"usage: keys PACK [TYPE KIND CONCAT LIMIT [SETKIND BITS]] <NAMES\n",
    );
    say(
        rt,
        b"TYPE: 0 Ashkenazi, 1 Generic, 2 Sephardic. KIND: 0 approx, 1 exact. CONCAT: 0 or 1. LIMIT: to 256. Left out: 1 0 0 20.\n",
    );
    say(
        rt,
        b"SETKIND: 0 Any, 1 None, 2 Some, of the languages in BITS. Left out: guessed. All numbers are decimal.\n",
    );
    program_io::mark(rt);
}
