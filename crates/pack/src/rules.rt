// The rules of a pack: where the strings of one stand, and a list of them checked.
ghost use Rattle.std.specs.Prelude.{◌≡◌, ◌≤◌, length, drop};
ghost use Rattle.pack.specs.Packs.{read_rule};
ghost use Rattle.pack.specs.PlaceContracts.{rule_stands_at, rule_count};
ghost use Rattle.pack.specs.InnerContracts.{ruled_in, RulesNoted, ListNoted};

use crate::rows::{Row, note_place};
use strings::{Number, Span};

// A rule by where its strings stand, one behind the other; the next rule stands where the expression ends.
#[derive(Clone, Copy)]
pub struct RuleAt {
    pub pattern: Span,
    pub left: Span,
    pub right: Span,
    pub expression: Span,
}

// The rule at a place of `pack`; none where bytes run out.
#[tactic(auto, using(crate::proofs::RuleLaws::rule_at_laws))]
pub fn rule_at(pack: &[u8], place: usize) -> Option<RuleAt>
    ensures { result ≡ rule_stands_at pack.now place }
{
    let pattern = strings::string_at(pack, place)?;
    let left = strings::string_at(pack, pattern.end)?;
    let right = strings::string_at(pack, left.end)?;
    let expression = strings::string_at(pack, right.end)?;
    Some(RuleAt {
        pattern,
        left,
        right,
        expression,
    })
}

// The rule count of the list at a place of `pack`; its rules follow 2 bytes behind the place.
#[tactic(auto, using(crate::proofs::RuleLaws::count_laws))]
pub fn rule_count(pack: &[u8], place: usize) -> usize
    ensures { result ≡ rule_count pack.now place }
{
    strings::count_at(pack, place).map_or(0, |count| count.value as usize)
}

// Where the rule at a place ends and its first character, if it is good and that character is `least` or behind it.
#[tactic(auto, using(crate::proofs::RuleLaws::next_rule_laws))]
fn next_rule(pack: &[u8], at: usize, names: &[u8], least: u32) -> Option<(usize, u32)>
    ensures { result ≡ ruled_in pack.now names.now least (read_rule (drop at pack.now)) }
{
    let rule = rule_at(pack, at)?;
    let pattern = &pack[rule.pattern.start..rule.pattern.end];
    let code = rule::first_code(pattern);
    if least <= code
        && rule_lines::rule_good(
            names,
            pattern,
            &pack[rule.left.start..rule.left.end],
            &pack[rule.right.start..rule.right.end],
            &pack[rule.expression.start..rule.expression.end],
        )
    {
        Some((rule.expression.end, code))
    } else {
        None
    }
}

// Where `count` rules end, by first character, each noted in a row.
#[tactic(auto, using(crate::proofs::RuleLaws::listing_laws))]
fn rules_from(pack: &[u8], start: usize, count: u32, names: &[u8], row: &mut Row) -> Option<usize>
    requires { start ≤ length pack.now }
    ensures { RulesNoted pack.now names.now count start row.old result row.new }
{
    let mut at = start;
    let mut least: u32 = 0;
    for _ in 0..count {
        let (end, code) = next_rule(pack, at, names, least)?;
        note_place(pack, row, at, end);
        at = end;
        least = code;
    }
    Some(at)
}

// Where the list at a place ends, its rules noted in a row; at most 4,096 rules.
#[tactic(auto, using(crate::proofs::RuleLaws::list_laws))]
pub(crate) fn list_section(pack: &[u8], at: usize, names: &[u8], row: &mut Row) -> Option<usize>
    ensures { ListNoted pack.now names.now at row.old result row.new }
{
    let Number { value: count, next } = strings::count_at(pack, at)?;
    if count <= 4096 {
        rules_from(pack, next, count, names, row)
    } else {
        None
    }
}
