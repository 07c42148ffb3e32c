// The lines of a file one after the other, and comments that run over lines.
ghost use Rattle.std.specs.Prelude.{◌≡◌};
ghost use Rattle.rules_parser.specs.Fields.{NotLf};
ghost use Rattle.rules_parser.specs.Files.{close_at, line_end, text_end, rest_blank, comment_at, item_at};
ghost use Rattle.rules_parser.specs.InnerContracts.{behind_line};
ghost use Rattle.rules_parser.specs.Numbers.{item_numbers};

use crate::lines::{Clause, FileKind, Line};

// The place behind the end of a comment, and how many lines it takes.
#[derive(Clone, Copy)]
pub(crate) struct Close {
    pub(crate) next: usize,
    pub(crate) lines: usize,
}

// What stands at the beginning of a line: nothing to keep for some lines, what the line says, or no line at all (12).
#[derive(Clone, Copy)]
pub enum Item {
    Passed { lines: usize, next: usize },
    Tells { told: Clause, next: usize },
    Wrong,
}

// The first */ from p on.
#[tactic(auto, using(crate::proofs::FileLaws::closes))]
fn close_at(s: &[u8], p: usize) -> Option<Close>
    ensures { result ≡ close_at s.now p }
{
    let mut n: usize = 0;
    for i in p..s.len() {
        if crate::fields::pair(s, i, b'*', b'/') {
            return Some(Close {
                next: i + 2,
                lines: n + 1,
            });
        }
        if s[i] == b'\n' {
            n += 1;
        }
    }
    None
}

// Where the line that holds p ends: at its LF, or at the end.
fn line_end(s: &[u8], p: usize) -> usize
    ensures { result ≡ line_end s.now p }
{
    crate::fields::span(s, p, |b| b != b'\n')
}

// Where the text of the line from p up to e ends: before the LF, and before a CR that stands right before it.
#[tactic(auto, using(crate::proofs::FileLaws::ends))]
fn text_end(s: &[u8], p: usize, e: usize) -> usize
    requires { e ≡ line_end s.now p }
    ensures { result ≡ text_end s.now p }
{
    if e < s.len() && p < e && s[e - 1] == b'\r' {
        e - 1
    } else {
        e
    }
}

// Where the next line begins after one that ends at e; the end where there is none.
#[tactic(auto, using(base::proofs::PickLaws::cases), unfolding(crate::specs::InnerContracts::behind_line))]
fn behind_line(s: &[u8], e: usize) -> usize
    ensures { result ≡ behind_line s.now e }
{
    if s.len() <= e { e } else { e + 1 }
}

// From p to the end e of its line there are but blanks.
#[tactic(auto, using(crate::proofs::FileLaws::ends))]
fn rest_blank(s: &[u8], p: usize, e: usize) -> bool
    requires { e ≡ line_end s.now p }
    ensures { result ≡ rest_blank s.now p }
{
    text_end(s, p, e) <= crate::fields::skip_blanks(s, p)
}

// The comment that the first text from p on opens.
#[tactic(auto, using(crate::proofs::FileLaws::comments))]
fn comment(s: &[u8], p: usize) -> Item
    ensures { result ≡ comment_at s.now p }
{
    let q = crate::fields::skip_blanks(s, p);
    if s.len() <= q {
        return Item::Wrong;
    }
    match close_at(s, q + 2) {
        Some(close) => {
            let e = line_end(s, close.next);
            if rest_blank(s, close.next, e) {
                Item::Passed {
                    lines: close.lines,
                    next: behind_line(s, e),
                }
            } else {
                Item::Wrong
            }
        }
        None => Item::Wrong,
    }
}

// The line that begins at p, or the lines that a comment takes.
#[tactic(auto, using(crate::proofs::NumberLaws::item_told, crate::proofs::FileLaws::items, crate::proofs::FileLaws::text_in_lem))]
pub fn read_item(kind: FileKind, s: &[u8], p: usize) -> Item
    ensures { item_numbers result ≡ item_numbers (item_at kind s.now p) }
{
    if s.len() <= p {
        return Item::Wrong;
    }
    let e = line_end(s, p);
    let end = text_end(s, p, e);
    match crate::lines::read_line(kind, &s[0..end], p) {
        Some(Line::Blank | Line::Comment) => Item::Passed {
            lines: 1,
            next: behind_line(s, e),
        },
        Some(Line::Opens) => comment(s, p),
        Some(Line::Tells(told)) => Item::Tells {
            told,
            next: behind_line(s, e),
        },
        None => Item::Wrong,
    }
}
