// Standard input, line by line. A line that fills its buffer is too long, and stands as an empty line.
ghost use Rattle.std.specs.Prelude.{◌≤◌, length};

use program_io::Bytes;

// How many bytes a block has, and the buffer of a line.
const BLOCK: usize = 65536;

pub const LINE: usize = 200001;

// The block's bytes from `at` up to `have` are still to be read.
#[derive(Clone, Copy)]
pub struct Input<'a> {
    rt: &'a HostRuntime,
    block: [u8; BLOCK],
    at: usize,
    have: usize,
    ghost starts: { at ≤ have },
    ghost ends: { have ≤ 65536 },
}

// Reads a block, and answers how many bytes it has: none once the input has ended.
fn read_block(rt: &HostRuntime, block: &mut [u8]) -> usize
    ensures { result ≤ length block.new }
{
    program_io::fill(&mut rt.stdin(), block).unwrap_or_else(|broken| {
        program_io::explain(rt, b"read", broken.why);
        broken.have
    })
}

impl<'a> Input<'a> {
    // Before the first line.
    pub fn new(rt: &'a HostRuntime) -> Self {
        Input {
            rt,
            block: program_io::zeros(),
            at: 0,
            have: 0,
        }
    }

    // Puts the block's bytes up to the end of a line behind the line, and answers whether the block has that end.
    fn put_rest(&mut self, line: &mut Bytes<LINE>) -> bool {
        let rest = &self.block[self.at..self.have];
        let n = program_io::length_before(rest, b'\n');
        line.push(&rest[..n]);
        let ends = n < rest.len();
        if ends {
            self.at += n + 1;
        }
        ends
    }

    // Reads a line, and answers whether there is one. The blocks are counted, up to a number that no run uses up, since a proved
    // loop ends.
    fn read_line(&mut self, line: &mut Bytes<LINE>) -> bool {
        line.clear();
        for _ in 0..u64::MAX {
            if self.put_rest(line) {
                return true;
            }
            self.at = 0;
            self.have = read_block(self.rt, &mut self.block);
            if self.have == 0 {
                break;
            }
        }
        line.len() > 0
    }

    // The next line, which stands in a buffer.
    pub fn next<'b>(&mut self, line: &'b mut Bytes<LINE>) -> Option<&'b [u8]> {
        if !self.read_line(line) {
            None
        } else if line.len() == LINE {
            Some(b"")
        } else {
            Some(line.as_slice())
        }
    }
}
