// Bytes put together in an array.
ghost use Rattle.std.specs.Prelude.{◌≡◌, ◌+◌, ◌<◌, ◌≤◌, [], ◌++◌, length, take};

use std::fmt;
use std::fmt::Display;

// An array of zeros. The contract gives only the length, so that no caller's proof sees the zeros.
pub fn zeros<const N: usize>() -> [u8; N]
    ensures { N ≡ length result }
{
    [0; N]
}

// How many bytes stand before the first b in s: all of them where it has none.
pub fn length_before(s: &[u8], b: u8) -> usize
    ensures { result ≤ length s.now }
{
    s.iter().position(|x| *x == b).unwrap_or(s.len())
}

// Bytes put one behind the other. What has no room fills the array up, and nothing has room then.
#[derive(Clone, Copy)]
pub struct Bytes<const N: usize> {
    array: [u8; N],
    len: usize,
    ghost within: { len ≤ N },
}

impl<const N: usize> Bytes<N> {
    ghost use Rattle.program_io.specs.Bytes.{contents};

    // None yet.
    pub fn new() -> Self
        ensures { contents result ≡ [] }
    {
        Bytes {
            array: zeros(),
            len: 0,
        }
    }

    pub fn len(&self) -> usize
        ensures number { result ≡ length (contents self.now) }
        ensures bound { result ≤ N }
    {
        self.len
    }

    pub fn as_slice(&self) -> &[u8]
        ensures whole { result.now ≡ contents self.now }
        ensures bound { length result.now ≤ N }
    {
        &self.array[..self.len]
    }

    // Puts bytes behind those that there are.
    pub fn push(&mut self, src: &[u8])
        ensures fits { length (contents self.old) + length src.now ≤ N → contents self.new ≡ contents self.old ++ src.now }
        ensures full { N < length (contents self.old) + length src.now → length (contents self.new) ≡ N }
        ensures kept { take (length (contents self.old)) (contents self.new) ≡ contents self.old }
    {
        if src.len() <= N - self.len {
            let start = self.len;
            let array = &mut self.array[..];
            array[start..start + src.len()].copy_from_slice(src);
            self.len = start + src.len();
        } else {
            self.len = N;
        }
    }

    // Puts the text of a value behind them.
    pub fn print(&mut self, value: impl Display + Drop)
        ensures { length (contents self.new) ≤ N }
    {
        // nothing that is put here fails
        let _ = fmt::Write::write(self, value);
    }

    // Begins anew with none.
    pub fn clear(&mut self)
        ensures { contents self.new ≡ [] }
    {
        self.len = 0;
    }
}

impl<const N: usize> fmt::Write for Bytes<N> {
    fn write_str(&mut self, s: &str) -> fmt::Result {
        self.push(s.as_bytes());
        Ok(())
    }
}
