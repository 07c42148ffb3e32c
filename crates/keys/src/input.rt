// Standard input, block by block. A line that is too long for the buffer is cut to a length that no name has.
ghost use Rattle.std.specs.Prelude.{◌≡◌, ◌≤◌, ◌<◌, ◌+◌, ◌-◌, length};

// How many bytes the buffer holds.
const ROOM: usize = 65536;

// The bytes of the buffer from `from` up to `have` wait to be answered. `open` is false once the input has ended, and then only
// whole lines wait.
#[derive(Clone, Copy)]
pub struct Input {
    buf: [u8; ROOM],
    from: usize,
    have: usize,
    open: bool,
    ghost starts: { from ≤ have },
    ghost ends: { have ≤ 65536 },
}

// Reads standard input behind the `had` bytes of buf, and answers how many buf then holds: all that it can, unless the input has
// ended.
fn more(rt: &HostRuntime, buf: &mut [u8], had: usize) -> usize
    requires { had ≤ length buf.old }
    ensures from { had ≤ result }
    ensures to { result ≤ length buf.new }
{
    had + program_io::fill(&mut rt.stdin(), &mut buf[had..]).unwrap_or_else(|broken| {
        program_io::failed(rt, b"keys: standard input", broken.why);
        broken.have
    })
}

// Passes over the rest of a line. Answers how many bytes behind it were read, which then stand at the start of buf. The turns are
// counted, up to a number that no run uses up, since a proved loop ends.
fn skip(rt: &HostRuntime, buf: &mut [u8]) -> usize
    ensures { result ≤ length buf.old }
{
    for _ in 0..u64::MAX {
        let have = more(rt, buf, 0);
        let end = program_io::length_before(&buf[..have], b'\n');
        if end < have {
            buf.copy_within(end + 1..have, 0);
            return have - (end + 1);
        }
        if have == 0 {
            break;
        }
    }
    0
}

impl Input {
    // Before the first block: nothing waits.
    pub fn new() -> Self
        ensures { result.have ≡ 0 }
    {
        Input {
            buf: program_io::zeros(),
            from: 0,
            have: 0,
            open: true,
        }
    }

    // Whether there may be a further line.
    pub fn goes_on(&self) -> bool {
        self.open || self.from < self.have
    }

    // The bytes that wait.
    pub fn waiting(&self) -> &[u8]
        ensures { length result.now ≡ self.now.have - self.now.from }
    {
        &self.buf[self.from..self.have]
    }

    // Passes over bytes that are answered.
    pub fn pass(&mut self, n: usize)
        requires { n ≤ self.old.have - self.old.from }
        ensures from { self.new.from ≡ self.old.from + n }
        ensures kept { self.new.have ≡ self.old.have }
    {
        self.from += n;
    }

    // Nothing waits any more, and nothing comes.
    pub fn end(&mut self)
        ensures { self.new.have ≡ self.new.from }
    {
        self.have = self.from;
        self.open = false;
    }

    // Goes on, where no whole line waits yet: what waits, at the start of the buffer, and what can be read behind it.
    pub fn read_on(&mut self, rt: &HostRuntime) {
        let had = self.have - self.from;
        self.buf.copy_within(self.from..self.have, 0);
        self.from = 0;
        self.have = more(rt, &mut self.buf, had);
        if self.have < ROOM {
            self.close();
        } else if !self.buf[had..].contains(&b'\n') {
            self.cut(rt);
        }
    }

    // The last block. A line that no line feed ends gets one.
    fn close(&mut self)
        requires { self.old.have < 65536 }
    {
        self.open = false;
        if self.waiting().last().is_some_and(|b| *b != b'\n') {
            self.buf[self.have] = b'\n';
            self.have += 1;
        }
    }

    // A line that fills the buffer with no end to it: of it stay 127 bytes and a line feed.
    fn cut(&mut self, rt: &HostRuntime)
        requires { self.old.from ≡ 0 }
    {
        self.buf[127] = b'\n';
        self.have = 128 + skip(rt, &mut self.buf[128..]);
    }
}
