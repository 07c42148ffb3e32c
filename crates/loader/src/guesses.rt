// The guessing file: its rules, checked and written.
ghost use Rattle.std.specs.Prelude.{◌≡◌, ◌≤◌};
ghost use Rattle.writing.specs.InnerContracts.{Put, cap};
ghost use Rattle.loader.specs.InnerContracts.{guess_put, judged_as, GuessesAre};

use refusals::Refusal;
use rule_lists::Refused;
use rules_parser::{Clause, FileKind, Item, Text};

// How many guessing rules were written, and where they end.
#[derive(Clone, Copy)]
pub(crate) struct GuessPart {
    pub(crate) count: usize,
    pub(crate) end: usize,
}

// The mask of a guessing rule, or its fault, in the order 18, 15, 16.
#[tactic(auto, using(crate::proofs::GuessLaws::judges))]
fn judge(names: &[u8], pattern: &[u8], joined: &[u8]) -> Result<u32, Refusal>
    ensures { result ≡ judged_as names.now pattern.now joined.now }
{
    if 255 < pattern.len() {
        return Err(Refusal::TooMuch);
    }
    if !lang::check_pattern(pattern) {
        return Err(Refusal::OutsideForms);
    }
    phonemes::names_mask(names, joined).ok_or(Refusal::NameUnlisted)
}

// Writes a guessing rule.
#[tactic(auto, using(crate::proofs::GuessLaws::guess_put_lem))]
fn put_guess(accept: bool, mask: u32, pattern: &[u8], out: &mut [u8], at: usize) -> usize
    ensures { Put out.old out.new at result (guess_put accept mask pattern.now) }
{
    let p = writing::push(out, at, u8::from(accept));
    let q = pack_bytes::put_mask(mask, out, p);
    pack_bytes::put_text(pattern, out, q)
}

// Writes what fits of the rules of the guessing file s from a place on.
#[tactic(auto, using(crate::proofs::GuessLaws::writes))]
pub(crate) fn write_guesses(
    s: &[u8],
    file: usize,
    names: &[u8],
    out: &mut [u8],
    at: usize,
) -> Result<GuessPart, Refused>
    requires { at ≤ cap }
    ensures { GuessesAre names.now s.now file out.old at result out.new }
{
    let mut place = at;
    let mut count: usize = 0;
    let mut p: usize = 0;
    let mut line: usize = 1;
    // Stays a loop by hand: what was read says where the next line begins, and a refusal tells the line.
    while p < s.len() {
        match rules_parser::read_item(FileKind::Guesses, s, p) {
            Item::Passed { lines, next } => {
                line += lines;
                p = next;
            }
            Item::Tells { told, next } => match told {
                Clause::Guess {
                    pattern,
                    names: joined,
                    accept,
                } => {
                    let text = rules_parser::part(s, pattern);
                    match judge(names, text, rules_parser::part(s, joined)) {
                        Ok(mask) => {
                            place = put_guess(accept, mask, text, out, place);
                            count += 1;
                            line += 1;
                            p = next;
                        }
                        Err(why) => {
                            return Err(Refused { why, line, file });
                        }
                    }
                }
                _ => {
                    return Err(Refused {
                        why: Refusal::LineUnreadable,
                        line,
                        file,
                    });
                }
            },
            Item::Wrong => {
                return Err(Refused {
                    why: Refusal::LineUnreadable,
                    line,
                    file,
                });
            }
        }
    }
    Ok(GuessPart { count, end: place })
}
