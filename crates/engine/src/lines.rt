// Names, a line each: the pack is checked once, and what is written is what the program prints.
ghost use Rattle.std.specs.Prelude.{◌≡◌, ◌+◌, ◌-◌, ◌≤◌, ◌<◌, min, max, leb, length};
ghost use Rattle.writing.specs.InnerContracts.{Put};
ghost use Rattle.engine.specs.Calls.{call_of, refused_as};
ghost use Rattle.engine.specs.InnerContracts.{OpenedIs, outcome_for};
ghost use Rattle.engine.specs.Lines.{most, decimal, refusal_line, LinesIs};
ghost use Rattle.engine.specs.LineContracts.{head_of, line_length, DoneIs, place_told, length_told, waits_for, RefusedIs, stopped_at};
ghost use Rattle.engine.specs.LineContracts.{SpaceIn, SpaceOf, BehindIs, LineFor};

use crate::call::{Request, Settings, Start, open};
use crate::spelling::{Spelled, spell_at};
use phoneme_builder::{Slots, Store};
use rule_index::Table;

// How many bytes of the block were read, and how many written; or that the first line has no room in the whole buffer, and how many
// bytes it needs (9).
#[derive(Clone, Copy)]
pub enum Lines {
    Done { read: usize, written: usize },
    NoRoom { needed: usize },
}

// Where a line begins, and how many bytes of the buffer are used.
#[derive(Clone, Copy)]
pub struct Space {
    pub at: usize,
    pub size: usize,
}

// The largest number of bytes that is told, and the most of a buffer that is used.
const MOST: usize = 4294967295;

// A number of bytes, as far as it is told.
fn most_of(n: usize) -> usize
    ensures { result ≡ min n most }
{
    n.min(MOST)
}

// The length of the line with an answer of so many bytes.
fn line_length(n: usize) -> usize
    ensures { result ≡ line_length n }
{
    n.min(MOST - 5) + 5
}

// A number in decimal, from a place on. Returns the place behind it.
#[tactic(auto, using(crate::proofs::LineLaws::lines_laws))]
fn put_decimal(n: usize, out: &mut [u8], at: usize) -> usize
    ensures { Put out.old out.new at result (decimal n) }
{
    let d = 48 + (n % 10) as u8;
    if n < 10 {
        return writing::push(out, at, d);
    }
    let p = put_decimal(n / 10, out, at);
    writing::push(out, p, d)
}

// The line of a refusal, as far as there is room.
#[tactic(auto, using(crate::proofs::LineLaws::refusal_put))]
fn put_refusal(code: u8, place: usize, out: &mut [u8], at: usize) -> usize
    ensures { Put out.old out.new at result (refusal_line (refused_as code place)) }
{
    let p = put_decimal(code as usize, out, at);
    let q = writing::push(out, p, b' ');
    let e = put_decimal(place, out, q);
    writing::push(out, e, b'\n')
}

// Whether a line with an answer of so many bytes has room.
#[tactic(auto, using(crate::proofs::LineLaws::lines_laws))]
fn has_room(n: usize, room: usize) -> bool
    ensures { result ≡ leb (n + 5) room }
{
    5 <= room && n <= room - 5
}

// Whether an answer has no room here, but has in the whole buffer.
#[tactic(auto, using(crate::proofs::LineLaws::lines_laws))]
fn waits(code: u8, place: usize, size: usize) -> bool
    ensures { result ≡ waits_for code place size }
{
    code == 9 && has_room(place, size)
}

// What the line of a refusal tells as its place: for 9 the length of the line with the answer.
#[tactic(auto, using(crate::proofs::LineLaws::lines_laws))]
fn place_told(code: u8, place: usize) -> usize
    ensures { result ≡ place_told code place }
{
    if code == 9 { line_length(place) } else { place }
}

// How many bytes the name's line needs: for 9 the line with the answer, else the line of the refusal, which has n.
#[tactic(auto, using(crate::proofs::LineLaws::lines_laws))]
fn length_told(code: u8, place: usize, n: usize) -> usize
    ensures { result ≡ length_told code place n }
{
    if code == 9 { line_length(place) } else { n }
}

// The line of a refusal from `at` on where it fits, unless the answer waits.
#[tactic(auto, using(crate::proofs::LineLaws::lines_laws))]
fn refused_line(code: u8, place: usize, out: &mut [u8], space: Space) -> Result<usize, usize>
    requires { SpaceIn out.old space }
    ensures { RefusedIs code place out.old out.new space result }
{
    let at = space.at;
    let size = space.size;
    let told = place_told(code, place);
    let mut none = [0u8; 1];
    let n = put_refusal(code, told, &mut none, 0);
    let needed = length_told(code, place, most_of(n));
    if waits(code, place, size) {
        return Err(needed);
    }
    if n <= size - at {
        Ok(put_refusal(code, told, out, at))
    } else {
        Err(needed)
    }
}

// What stands before an answer.
#[tactic(auto, using(crate::proofs::LineLaws::digit_small, crate::proofs::LineLaws::head_is))]
fn put_head(flag: bool, out: &mut [u8], at: usize) -> usize
    ensures { Put out.old out.new at result (head_of flag) }
{
    let head = [b'0', b' ', b'0' + u8::from(flag), b' '];
    writing::copy(&head, out, at)
}

// What stands before and behind an answer in its place, 4 bytes behind `at`, where they fit; else the answer is too long.
#[tactic(auto, using(crate::proofs::LineLaws::lines_laws))]
fn done_line(written: usize, flag: bool, out: &mut [u8], space: Space) -> Result<usize, usize>
    requires { SpaceIn out.old space }
    ensures { DoneIs written flag out.old out.new space result }
{
    let at = space.at;
    let size = space.size;
    if has_room(written, size - at) {
        put_head(flag, out, at);
        Ok(writing::push(out, at + 4 + written, b'\n'))
    } else {
        refused_line(9, written, out, space)
    }
}

// Where an answer begins, four bytes behind `at`.
fn front_of(at: usize, size: usize) -> usize
    requires { at ≤ size }
    ensures { result ≡ min (at + 4) size }
{
    at + (size - at).min(4)
}

// Where the room of an answer ends, before the last byte.
fn end_of(a: usize, size: usize) -> usize
    requires { a ≤ size }
    ensures { result ≡ max a (size - 1) }
{
    a.max(size.saturating_sub(1))
}

// A name spelled, its answer in its place in a line.
#[tactic(auto, using(crate::proofs::LentLaws::lent_laws))]
fn spell_behind(
    store: &mut Store,
    slots: &mut Slots,
    pack: &[u8],
    table: &Table,
    request: Request,
    name: &[u8],
    out: &mut [u8],
    space: Space,
) -> Spelled
    requires opened_is { OpenedIs pack.now table.now request.opened }
    requires space_of { SpaceOf out.old space }
    ensures { BehindIs (outcome_for request pack.now name.now) space out.old result out.new }
{
    let a = front_of(space.at, space.size);
    let e = end_of(a, space.size);
    spell_at(store, slots, pack, table, request, name, &mut out[a..e])
}

// The line of one name, where it fits.
#[tactic(auto, using(crate::proofs::NameLineLaws::put_laws))]
fn put_line(
    store: &mut Store,
    slots: &mut Slots,
    pack: &[u8],
    table: &Table,
    request: Request,
    name: &[u8],
    out: &mut [u8],
    space: Space,
) -> Result<usize, usize>
    requires opened_is { OpenedIs pack.now table.now request.opened }
    requires space_of { SpaceOf out.old space }
    ensures { LineFor (outcome_for request pack.now name.now) out.old out.new space result }
{
    match spell_behind(store, slots, pack, table, request, name, out, space) {
        Spelled::Done { written, flag } => done_line(written, flag, out, space),
        Spelled::Refused { why, place } => {
            refused_line(refusals::number_of(why), place, out, space)
        }
    }
}

// What is answered where a line has no room: that, if it is the first, else what was read and written.
#[tactic(auto, using(crate::proofs::LineLaws::lines_laws))]
fn stopped(read: usize, written: usize, needed: usize) -> Lines
    ensures { result ≡ stopped_at read written needed }
{
    if written == 0 {
        Lines::NoRoom { needed }
    } else {
        Lines::Done { read, written }
    }
}

// The place behind a name of n bytes and its LF.
fn past_line(block: &[u8], read: usize, n: usize) -> usize
    requires { read + n < length block.now }
    ensures { result ≡ read + n + 1 }
{
    read + n + 1
}

// The lines of whole names, as many as fit.
#[tactic(auto, using(crate::proofs::LinesLaws::going_laws))]
fn put_lines(
    store: &mut Store,
    slots: &mut Slots,
    pack: &[u8],
    table: &Table,
    request: Request,
    block: &[u8],
    out: &mut [u8],
) -> Lines
    requires { OpenedIs pack.now table.now request.opened }
    ensures { LinesIs (outcome_for request pack.now) block.now out.old result out.new }
{
    let size = most_of(out.len());
    let mut read: usize = 0;
    let mut written: usize = 0;
    // Stays a loop by hand: a line goes behind the one before it, and none is read behind one that has no room.
    loop {
        let rest = &block[read..];
        let n = texts::find_byte(rest, b'\n');
        if rest.len() <= n {
            return Lines::Done { read, written };
        }
        let space = Space { at: written, size };
        match put_line(store, slots, pack, table, request, &rest[0..n], out, space) {
            Ok(next) => {
                written = next;
                read = past_line(block, read, n);
            }
            Err(needed) => return stopped(read, written, needed),
        }
    }
}

// The lines of whole names at the front of `out`, as many as fit; or 9, where the first does not.
pub fn spell_lines(
    settings: Settings,
    start: Start,
    pack: &[u8],
    block: &[u8],
    out: &mut [u8],
) -> Lines
    ensures { LinesIs (call_of settings start pack.now) block.now out.old result out.new }
{
    let mut table = [[0usize; rule_index::COLUMNS]; rule_index::ROWS];
    let opened = open(pack, &mut table, true);
    let mut store = [[0u8; 32768]; 4];
    let mut slots = [[0u64; 256]; 4];
    let request = Request {
        opened,
        settings,
        start,
    };
    put_lines(&mut store, &mut slots, pack, &table, request, block, out)
}
