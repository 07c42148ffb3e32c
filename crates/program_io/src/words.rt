// The word that something went wrong.
use crate::files::read_file;
use std::fs::OpenOptions;
use std::io::{Error, Write};
use std::rt::Files;
use std::{io, str};

// Whether descriptor 3 is open for writing: the last digit of its flags is how it was opened, and 0 is for reading.
fn is_listened_to(files: &impl Files) -> bool {
    let mut info = [0u8; 256];
    // what stands before a failed read counts too
    let n = read_file(files, b"/proc/self/fdinfo/3", &mut info).unwrap_or_else(
        |broken| broken.have,
    );
    str::from_utf8(&info[..n]).is_ok_and(|text| {
        text.lines()
            .any(|line| line.starts_with("flags:") && !line.ends_with('0'))
    })
}

// Writes bytes to descriptor 3.
fn write_to_caller(files: &impl Files, bytes: &[u8]) -> io::Result<()> {
    let mut caller = OpenOptions::new().append(true).open(files, "/dev/fd/3")?;
    caller.write_all(bytes)
}

// Tells the caller by bytes on descriptor 3, if it listens there.
fn tell(files: &impl Files, bytes: &[u8]) {
    if is_listened_to(files) {
        let _ = write_to_caller(files, bytes);
    }
}

// Tells the caller by a byte on descriptor 3, which the programs of bin/ turn into exit status 2: a program has none of its own.
pub fn mark(files: &impl Files) {
    tell(files, b"2");
}

// Tells the caller likewise that what was asked for is refused: exit status 1.
pub fn refused(files: &impl Files) {
    tell(files, b"1");
}

// Puts words on standard error. Where that cannot be done there is nowhere to say so.
pub fn say(rt: &HostRuntime, words: &[u8]) {
    let _ = rt.stderr().write_all(words);
}

// What the system calls an error: std puts its number behind that.
fn words_of(text: &str) -> &str {
    text.split_once(" (os error ")
        .map_or(text, |(words, _)| words)
}

// Puts a colon and why something failed on standard error.
fn say_why(rt: &HostRuntime, why: Error) -> io::Result<()> {
    match format!(in rt.alloc(); "{why}") {
        Ok(text) => {
            let words = words_of(text.as_str());
            eprintln!(rt; ": {words}")
        }
        Err(_) => eprintln!(rt; ": {why}"),
    }
}

// Says what failed, and why.
pub fn explain(rt: &HostRuntime, what: &[u8], why: Error) {
    say(rt, what);
    let _ = say_why(rt, why);
}

// Says what failed, and why, and tells the caller.
pub fn failed(rt: &HostRuntime, what: &[u8], why: Error) {
    explain(rt, what, why);
    mark(rt);
}
