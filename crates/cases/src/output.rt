// Standard output: what waits is written once it is much, and at the end. The buffer is an array, so that memory cannot run out.
use program_io::Bytes;
use std::fmt::Display;

// How much waits at most before a text is put behind it.
const MUCH: usize = 32768;

// The digits of hex.
const DIGITS: [u8; 16] = *b"0123456789abcdef";

#[derive(Drop)]
pub struct Output<'a> {
    rt: &'a HostRuntime,
    waiting: Bytes<65536>,
}

impl<'a> Output<'a> {
    pub fn new(rt: &'a HostRuntime) -> Self {
        Output {
            rt,
            waiting: Bytes::new(),
        }
    }

    // How many bytes wait.
    pub(crate) fn len(&self) -> usize {
        self.waiting.len()
    }

    // Writes out what waits.
    pub fn flush(&mut self) {
        if let Err(why) = self.rt.write_all(self.waiting.as_slice()) {
            program_io::explain(self.rt, b"write", why);
        }
        self.waiting.clear();
    }

    // Puts a number.
    pub(crate) fn put_number(&mut self, n: usize) {
        self.waiting.print(n);
    }

    // Writes out what waits once it is much.
    fn make_room(&mut self) {
        if self.waiting.len() >= MUCH {
            self.flush();
        }
    }

    // Puts the text of a value, once there is room for it.
    pub(crate) fn put(&mut self, value: impl Display + Drop) {
        self.make_room();
        self.waiting.print(value);
    }

    // Puts a byte in hex, once there is room for it: through `put` it takes many times as long.
    pub(crate) fn put_hex(&mut self, b: u8) {
        self.make_room();
        self.waiting.push(&[DIGITS[usize::from(b / 16)], DIGITS[usize::from(b % 16)]]);
    }
}
