// The table that a pack's rules are found by: which rules of each list may match at a byte.
ghost use Rattle.std.specs.Prelude.{◌-◌, ◌≤◌};
ghost use Rattle.rule_index.specs.InnerContracts.{ListReady, ListStands, ListIndexed, ListsReady, ListsFound, SurveyLeft, AcceptedIs, IndexIs};
ghost use Rattle.pack.specs.PlaceContracts.{rule_count};

use crate::guessing::note_guesses;
use crate::numbers::{marks_of, number_rule};
use crate::rows::{COLUMNS, LISTS, Table, clear_rows, see_rows};
use pack::{NUMBERS, Surveyed};

// The rules of the list at a place numbered from `first` on and noted in its row. Returns the number behind the last one.
#[tactic(auto, using(crate::proofs::RowLaws::numbering_laws))]
fn number_list(pack: &[u8], table: &mut Table, list: usize, place: usize, first: usize) -> usize
    requires list_ready { ListReady pack.now table.old list place first }
    requires place_bound { rule_count pack.now place ≤ 4096 - first }
    ensures { ListIndexed pack.now table.old table.new list place first result }
{
    let count = pack::rule_count(pack, place);
    let mut at = place + 2;
    let mut number = first;
    for _ in 0..count {
        let Some(rule) = pack::rule_at(pack, at) else {
            return number;
        };
        let marks = marks_of(
            &pack[rule.pattern.start..rule.pattern.end],
            &pack[rule.left.start..rule.left.end],
            &pack[rule.right.start..rule.right.end],
        );
        number_rule(table, number, at, marks);
        let byte = strings::byte_at(pack, rule.pattern.start);
        pack::note_rule(&mut table[list], byte, number, number + 1);
        at = rule.expression.end;
        number += 1;
    }
    number
}

// The list at a place, whose row has its rules by places: by numbers from `free` on where there are enough. Returns the number that is
// free then.
#[tactic(auto, using(crate::proofs::IndexLaws::indexing_laws))]
fn index_list(pack: &[u8], table: &mut Table, list: usize, place: usize, free: usize) -> usize
    requires { ListStands pack.now table.old list place free }
    ensures { ListIndexed pack.now table.old table.new list place free result }
{
    if pack::rule_count(pack, place) <= NUMBERS - free {
        table[list] = [0usize; COLUMNS];
        number_list(pack, table, list, place, free)
    } else {
        free
    }
}

// The lists at their places, each found by its row, with numbers from `first` on.
#[tactic(auto, using(crate::proofs::IndexLaws::listing_laws))]
fn index_lists(pack: &[u8], places: &[usize], lists: usize, table: &mut Table, first: usize)
    requires lists_ready { ListsReady pack.now places.now lists table.old }
    requires first_bound { first ≤ 4096 }
    ensures { ListsFound pack.now table.old table.new }
{
    let mut free = first;
    for k in 0..lists {
        free = index_list(pack, table, k, places[k], free);
    }
}

// The table of an accepted pack, in which its survey noted its lists: the rows behind are made blank, its guessing rules noted and its
// rules numbered.
#[tactic(auto, using(crate::proofs::IndexLaws::left_laws))]
fn index_accepted(
    pack: &[u8],
    places: &[usize],
    table: &mut Table,
    languages: usize,
    guesses: usize,
    many: bool,
)
    requires { SurveyLeft pack.now places.now table.old languages guesses }
    ensures { AcceptedIs pack.now table.new languages guesses }
{
    let lists = 3 * languages + 2;
    see_rows(table);
    clear_rows(table, lists);
    note_guesses(pack, guesses, table, many);
    // Rules are not numbered where a single name is spelled.
    index_lists(pack, places, lists, table, if many { 0 } else { NUMBERS });
}

// The verdict on a pack, and the table by which its rules are found, whatever the table held before. A refused pack has none.
// A survey notes the places of the rules. Where many names are spelled by the table they are numbered too, and the pairs of guessing
// rules are found: a second walk, which pays from the second name on.
#[tactic(auto, using(crate::proofs::IndexLaws::survey_laws))]
pub fn index(pack: &[u8], table: &mut Table, many: bool) -> Surveyed
    ensures { IndexIs pack.now result table.new }
{
    let mut places = [0usize; LISTS];
    match pack::survey(pack, &mut places, table) {
        Surveyed::Accepted { languages, guesses } => {
            index_accepted(pack, &places, table, languages, guesses, many);
            Surveyed::Accepted { languages, guesses }
        }
        Surveyed::Refused(place) => {
            see_rows(table);
            clear_rows(table, 0);
            Surveyed::Refused(place)
        }
    }
}
