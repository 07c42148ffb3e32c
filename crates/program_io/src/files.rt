// Whole files.
ghost use Rattle.std.specs.Prelude.{◌≤◌, length, MatchResult};

use std::io::{Error, ErrorKind, Read};
use std::rt::Files;
use std::{fs, io, str};

// Why a read failed, and how many bytes were read before.
#[derive(Clone, Copy)]
pub struct Broken {
    pub have: usize,
    pub why: Error,
}

// Reads until buf is full or the input ends, and answers how many bytes buf then holds.
pub fn fill(input: &mut impl Read, buf: &mut [u8]) -> Result<usize, Broken>
    ensures { MatchResult result (λ n. n ≤ length buf.new) (λ e. e.have ≤ length buf.new) }
{
    let mut have = 0;
    // Stays a loop by hand: how far a step goes is what was read, and std's read_exact fails where the input ends.
    while have < buf.len() {
        match input.read(&mut buf[have..]) {
            Ok(0) => break,
            Ok(more) => have += more,
            Err(why) => return Err(Broken { have, why }),
        }
    }
    Ok(have)
}

// A path as text, since std opens no path that is not UTF-8.
fn text_of(path: &[u8]) -> io::Result<&str> {
    str::from_utf8(path).map_err(|_| Error::new(
        ErrorKind::InvalidFilename,
        "a path that is not UTF-8",
    ))
}

// Opens a file for reading.
fn open<R: Files>(files: &R, path: &[u8]) -> io::Result<R::File> {
    fs::open(files, text_of(path)?)
}

// Reads a file, as far as buf goes, and answers how many bytes buf then holds.
pub fn read_file(files: &impl Files, path: &[u8], buf: &mut [u8]) -> Result<usize, Broken>
    ensures { MatchResult result (λ n. n ≤ length buf.new) (λ e. e.have ≤ length buf.new) }
{
    let mut file = open(files, path).map_err(|why| Broken { have: 0, why })?;
    fill(&mut file, buf)
}

// Makes a file of these bytes, or puts them in the place of those that it has.
pub fn write_file(files: &impl Files, path: &[u8], content: &[u8]) -> io::Result<()> {
    fs::write(files, text_of(path)?, content)
}
