// The files taken so far. They stand in `store` one behind the other, each as a bundle has it: the name behind its length byte, and
// the content behind its length in 4 bytes.
ghost use Rattle.std.specs.Prelude.{◌≤◌, length, IfOk};

use crate::words;
use program_io::{Bytes, LONGEST};
use std::io::{Error, ErrorKind};
use std::{io, str};

// How many bytes a bundle has at most, and how many files.
pub const ROOM: usize = 1048576;

pub const MOST: usize = 512;

// What went wrong is said, and no bundle is made.
#[derive(Clone, Copy)]
pub struct Over;

// The name of a file as a bundle has it.
fn name_of(file: &[u8]) -> &[u8] {
    match file {
        [len, rest @ ..] => rest.get(..usize::from(*len)).unwrap_or(b""),
        [] => b"",
    }
}

fn content_of(file: &[u8]) -> &[u8] {
    file.get(5 + name_of(file).len()..).unwrap_or(b"")
}

// Where a file stands in the store.
#[derive(Clone, Copy)]
struct Place {
    start: usize,
    end: usize,
}

impl Place {
    // No bytes where the store has no such place.
    fn part(self, store: &[u8]) -> &[u8] {
        store.get(self.start..self.end).unwrap_or(b"")
    }
}

#[derive(Clone, Copy)]
pub struct Taken {
    store: [u8; ROOM],
    used: usize,
    places: [Place; MOST],
    count: usize,
    ghost stored: { used ≤ 1048576 },
    ghost counted: { count ≤ 512 },
}

// Puts the path of a file into buf. One that is too long fills it, and is no path.
fn path_of(dir: &[u8], name: &[u8]) -> Bytes<LONGEST> {
    let mut path = Bytes::new();
    path.push(dir);
    path.push(b"/");
    path.push(name);
    path.push(b".txt");
    path
}

// Reads a file to the start of out, as a bundle has it, and answers its length there: all of out where it is too long.
fn read_whole(rt: &HostRuntime, path: &[u8], name: &[u8], out: &mut [u8]) -> io::Result<usize>
    ensures { IfOk result (λ n. n ≤ length out.new) }
{
    let start = name.len() + 5;
    if out.len() < start {
        return Ok(out.len());
    }
    let len = program_io::read_file(rt, path, &mut out[start..]).map_err(|broken| broken.why)?;
    out[0] = (name.len() % 256) as u8;
    out[1..start - 4].copy_from_slice(name);
    out[start - 4..start].copy_from_slice(&(len as u64).to_be_bytes()[4..]);
    Ok(start + len)
}

// Whether a file of a folder can have a name and `.txt` behind it: 251 bytes at most, none of them a slash or 0.
fn is_file_name(name: &[u8]) -> bool {
    name.len() <= 251 && !name.contains(&b'/') && !name.contains(&0)
}

impl Taken {
    pub fn new() -> Self {
        Taken {
            store: program_io::zeros(),
            used: 0,
            places: [Place { start: 0, end: 0 }; MOST],
            count: 0,
        }
    }

    pub fn count(&self) -> usize
        ensures { result ≤ 512 }
    {
        self.count
    }

    // The content of file i; no bytes where there is none.
    pub fn content(&self, i: usize) -> &[u8] {
        match self.places[..self.count].get(i) {
            Some(place) => content_of(place.part(&self.store)),
            None => b"",
        }
    }

    // Whether a file of a name was taken.
    fn has(&self, name: &[u8]) -> bool {
        self.places[..self.count]
            .iter()
            .any(|place| name_of(place.part(&self.store)) == name)
    }

    // Notes the file that was read up to `end`, unless the bundle, with the 2 bytes of its count, is then over 1 MiB.
    fn note_end(&mut self, rt: &HostRuntime, path: &[u8], end: usize) -> Result<(), Over> {
        if end > ROOM - 2 {
            words::too_large(rt, path);
            return Err(Over);
        }
        if self.count == MOST {
            words::too_many(rt, path);
            return Err(Over);
        }
        self.places[self.count] = Place {
            start: self.used,
            end,
        };
        self.count += 1;
        self.used = end;
        Ok(())
    }

    // Takes the file of a path. Where it cannot be read it may be missing.
    fn take_path(&mut self, rt: &HostRuntime, path: &[u8], name: &[u8]) -> Result<(), Over> {
        match read_whole(rt, path, name, &mut self.store[self.used..]) {
            Ok(len) => self.note_end(rt, path, self.used + len),
            Err(why) if why.kind() == ErrorKind::NotFound => {
                words::missing(rt, name);
                Ok(())
            }
            Err(why) => {
                words::unreadable(rt, path, why);
                Err(Over)
            }
        }
    }

    // Takes the file of a name, where it is not taken yet and the folder has it.
    pub fn take(&mut self, rt: &HostRuntime, dir: &[u8], name: &[u8]) -> Result<(), Over> {
        if self.has(name) {
            return Ok(());
        }
        if !is_file_name(name) {
            words::unnamed(rt, name);
            return Ok(());
        }
        // std opens no file whose name is not UTF-8
        if str::from_utf8(name).is_err() {
            words::unopened(rt, name);
            return Ok(());
        }
        self.take_path(rt, path_of(dir, name).as_slice(), name)
    }

    // Puts the bundle of the files into out, in the order of their names.
    pub fn put_bundle(&mut self, out: &mut Bytes<ROOM>) {
        let store = &self.store;
        let all = &mut self.places[..];
        let places = &mut all[..self.count];
        places.sort_unstable_by(|a, b| name_of(a.part(store)).cmp(name_of(b.part(store))));
        out.push(&(self.count as u16).to_be_bytes());
        for place in places {
            out.push(place.part(store));
        }
    }
}
