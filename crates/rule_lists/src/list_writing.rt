// Writing a list: what fits of it is written, and its end told, so that one function measures and writes.
ghost use Rattle.std.specs.Prelude.{◌≡◌, ◌≤◌, ◌<◌, length, take};
ghost use mathlib.Core.List;
ghost use Rattle.writing.specs.InnerContracts.{Put};
ghost use Rattle.rule_lists.specs.Lines.{rule_in};
ghost use Rattle.rule_lists.specs.TableContracts.{keys_of};
ghost use Rattle.rule_lists.specs.WritingContracts.{rule_put, row_put, SomeKept, RowFits, row_at_put, RowsPut};

use crate::tables::{MOST_RULES, PLACES, Spot};
use refusals::Refusal;
use rules_parser::Text;

// The place behind what was written, or the refusal.
#[derive(Clone, Copy)]
pub enum Written {
    Done {
        at: usize,
    },
    Refused {
        why: Refusal,
        line: usize,
        file: usize,
    },
}

// Writes the four strings of a rule.
#[tactic(auto, using(crate::proofs::WritingLaws::writing_laws))]
fn put_rule(
    s: &[u8],
    pattern: Text,
    left: Text,
    right: Text,
    expression: Text,
    out: &mut [u8],
    at: usize,
) -> usize
    ensures { Put out.old out.new at result (rule_put (rule_in s.now pattern left right expression)) }
{
    let p = pack_bytes::put_text(rules_parser::part(s, pattern), out, at);
    let q = pack_bytes::put_text(rules_parser::part(s, left), out, p);
    let r = pack_bytes::put_text(rules_parser::part(s, right), out, q);
    pack_bytes::put_text(rules_parser::part(s, expression), out, r)
}

// Writes the rule of the line that begins at `place` of s.
#[tactic(auto, using(crate::proofs::WritingLaws::writing_laws))]
fn put_row(s: &[u8], place: usize, out: &mut [u8], at: usize) -> usize
    ensures { Put out.old out.new at result (row_put s.now place) }
{
    let strings = rules_parser::rule_strings(s, place);
    let pattern = strings.pattern;
    let left = strings.left;
    let right = strings.right;
    let expression = strings.expression;
    put_rule(s, pattern, left, right, expression, out, at)
}

// Writes the rule of row j.
fn put_at(bundle: &[u8], rows: &[Spot; MOST_RULES], j: usize, out: &mut [u8], at: usize) -> usize
    requires { (j < 4096) × RowFits bundle.now rows.now j }
    ensures { Put out.old out.new at result (row_at_put bundle.now rows.now j) }
{
    let spot = rows[j];
    put_row(&bundle[spot.start..spot.end], spot.place, out, at)
}

// Writes the count, and the rules of the first n keys.
#[tactic(auto, using(crate::proofs::WritingLaws::rows_laws))]
fn put_rows(
    bundle: &[u8],
    rows: &[Spot; MOST_RULES],
    keys: &[u64; MOST_RULES],
    n: usize,
    out: &mut [u8],
    at: usize,
) -> usize
    requires n_bound { (n ≤ 4096) × (take n keys.now ≡ keys_of rows.now n 0 List.[]) }
    requires some_kept { SomeKept bundle.now rows.now n }
    ensures { RowsPut bundle.now rows.now n out.old at result out.new }
{
    let mut place = pack_bytes::put_count(n as u16, out, at);
    for i in 0..n {
        place = put_at(bundle, rows, (keys[i] % PLACES) as usize, out, place);
    }
    place
}

// Writes a list: the rules of n rows by first character, and by place under each.
pub(crate) fn put_sorted(
    bundle: &[u8],
    rows: &[Spot; MOST_RULES],
    n: usize,
    keys: &mut [u64; MOST_RULES],
    out: &mut [u8],
    at: usize,
) -> usize
    requires { (n ≤ 4096) × SomeKept bundle.now rows.now n }
    ensures { RowsPut bundle.now rows.now n out.old at result out.new }
{
    crate::tables::sort(rows, n, keys);
    put_rows(bundle, rows, keys, n, out, at)
}
