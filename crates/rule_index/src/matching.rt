// The first rule of a list that matches at a place of a word (`RulesApplication` of engine.rs).
ghost use Rattle.std.specs.Prelude.{◌≡◌, ◌≤◌, ◌<◌, ◌-◌, max, length};
ghost use Rattle.rule_index.specs.InnerContracts.{FrontIs, OneMatch, NumberMatch, FirstNumbered, FirstBetween, FirstFound, FirstMatch};

use crate::numbers::{Front, front_of, is_tried};
use crate::rows::{LISTS, PLACES, Table, noted_at};
use pack::{KINDS, NUMBERS};
use strings::Span;

// A rule that matches: how far its pattern reaches, and where its expression stands in the pack.
#[derive(Clone, Copy)]
pub struct Matched {
    pub step: usize,
    pub expression: Span,
}

// The first rule that matches, of those that stand from one place to another.
#[tactic(auto, using(crate::proofs::MatchLaws::finding_laws))]
fn first_between(
    pack: &[u8],
    start: usize,
    stop: usize,
    word: &[u8],
    place: usize,
) -> Option<Matched>
    requires { place < length word.now }
    ensures { FirstBetween pack.now start stop word.now place result }
{
    // Stays a loop by hand: where the next rule stands is known once this one is read.
    let mut at = start;
    while at < stop {
        let rule = pack::rule_at(pack, at)?;
        if rule::rule_matches(
            &pack[rule.pattern.start..rule.pattern.end],
            &pack[rule.left.start..rule.left.end],
            &pack[rule.right.start..rule.right.end],
            word,
            place,
        ) {
            return Some(Matched {
                step: (rule.pattern.end - rule.pattern.start).max(1),
                expression: rule.expression,
            });
        }
        at = rule.expression.end;
    }
    None
}

// The rule at a place of the pack, where it matches at a place of a word.
#[tactic(auto, using(crate::proofs::MatchLaws::one_laws))]
fn match_one(pack: &[u8], at: usize, word: &[u8], place: usize) -> Option<Matched>
    requires { place < length word.now }
    ensures { OneMatch pack.now at word.now place result }
{
    let rule = pack::rule_at(pack, at)?;
    if rule::rule_matches(
        &pack[rule.pattern.start..rule.pattern.end],
        &pack[rule.left.start..rule.left.end],
        &pack[rule.right.start..rule.right.end],
        word,
        place,
    ) {
        Some(Matched {
            step: (rule.pattern.end - rule.pattern.start).max(1),
            expression: rule.expression,
        })
    } else {
        None
    }
}

// The rule of a number, where it matches; `front` is what the word has at the place.
#[tactic(auto, using(crate::proofs::MatchLaws::number_laws))]
fn try_number(
    pack: &[u8],
    table: &Table,
    number: usize,
    front: Front,
    word: &[u8],
    place: usize,
) -> Option<Matched>
    requires { (number < 4096) × (place < length word.now) × FrontIs word.now place front }
    ensures { NumberMatch pack.now table.now number word.now place result }
{
    if is_tried(table, number, front) {
        match_one(pack, noted_at(table, PLACES, number), word, place)
    } else {
        None
    }
}

// The first rule that matches, of those from one number to another.
#[tactic(auto, using(crate::proofs::MatchLaws::left_numbers_laws))]
fn first_numbered(
    pack: &[u8],
    table: &Table,
    start: usize,
    stop: usize,
    word: &[u8],
    place: usize,
) -> Option<Matched>
    requires { (stop ≤ 4096) × (place < length word.now) }
    ensures { FirstNumbered pack.now table.now start stop word.now place result }
{
    let front = front_of(word, place);
    for number in start..stop {
        let matched = try_number(pack, table, number, front, word, place);
        if matched.is_some() {
            return matched;
        }
    }
    None
}

// The first rule that matches, of those that a row has for a kind of byte.
#[tactic(auto, using(crate::proofs::MatchLaws::found_laws))]
fn first_found(
    pack: &[u8],
    table: &Table,
    start: usize,
    stop: usize,
    word: &[u8],
    place: usize,
) -> Option<Matched>
    requires { place < length word.now }
    ensures { FirstFound pack.now table.now start stop word.now place result }
{
    if NUMBERS < stop {
        first_between(
            pack,
            start.saturating_sub(NUMBERS),
            stop - NUMBERS,
            word,
            place,
        )
    } else {
        first_numbered(pack, table, start, stop, word, place)
    }
}

// The first rule of a list that matches at a place of a word; none where there is no such list or no such place.
#[tactic(auto, using(crate::proofs::MatchLaws::look_laws))]
pub fn first_match(
    pack: &[u8],
    table: &Table,
    list: usize,
    word: &[u8],
    place: usize,
) -> Option<Matched>
    ensures { FirstMatch pack.now table.now list word.now place result }
{
    if LISTS <= list || word.len() <= place {
        return None;
    }
    let kind = usize::from(word[place]) % KINDS;
    first_found(
        pack,
        table,
        table[list][kind],
        table[list][kind + KINDS],
        word,
        place,
    )
}
