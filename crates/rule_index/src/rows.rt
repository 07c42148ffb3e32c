// The rows of the table, and the numbers that those behind the lists' hold.
ghost use Rattle.std.specs.Prelude.{◌≡◌, ◌≤◌, ◌<◌, length};
ghost use Rattle.rule_index.specs.Rows.{guess_row, Roomy, noted_at, put_at};
ghost use Rattle.rule_index.specs.InnerContracts.{Cleared};

use pack::NUMBERS;

// A pack has 3 lists for each of at most 32 languages, and 2 more.
pub(crate) const LISTS: usize = 98;

// The numbers of a row, as a survey notes it.
pub const COLUMNS: usize = pack::COLUMNS;

// So many numbers are held of a kind: a pack has no more guessing rules, and no more rules of its lists are numbered. The first rows of the rules' places, of the first two bytes of their patterns, of the bytes that may stand before a place and behind its
// first byte, of what guessing rules require of a signature and of pairs, and of their places.
pub(crate) const PLACES: usize = LISTS;

pub(crate) const LEADS: usize = PLACES + NUMBERS / COLUMNS;

pub(crate) const BEFORE: usize = LEADS + NUMBERS / COLUMNS;

pub(crate) const BEHIND: usize = BEFORE + NUMBERS / COLUMNS;

pub(crate) const REQUIRED: usize = BEHIND + NUMBERS / COLUMNS;

pub(crate) const PAIRS: usize = REQUIRED + NUMBERS / COLUMNS;

pub(crate) const GUESSES: usize = PAIRS + NUMBERS / COLUMNS;

// The rows of the whole table.
pub const ROWS: usize = GUESSES + NUMBERS / COLUMNS;

// A row for each list: for each kind of byte the number of the first rule to try, and behind those the number behind the last one (0
// where there is none). Of a list for which no numbers are left they are places in the pack, told apart by being over NUMBERS. Behind
// these rows stand those of the numbered rules and of the guessing rules.
pub type Table = [[usize; COLUMNS]; ROWS];

// A number stored as the i-th from a row on.
#[tactic(auto, unfolding(crate::specs::Rows::put_at))]
pub(crate) fn put_at(table: &mut Table, row: usize, i: usize, value: usize)
    requires { (row ≤ guess_row) × (i < 4096) }
    ensures { table.new ≡ put_at table.old row i value }
{
    table[row + i / COLUMNS][i % COLUMNS] = value;
}

// The i-th number from a row on.
#[tactic(auto, unfolding(crate::specs::Rows::noted_at))]
pub(crate) fn noted_at(table: &Table, row: usize, i: usize) -> usize
    requires { (row ≤ guess_row) × (i < 4096) }
    ensures { result ≡ noted_at table.now row i }
{
    table[row + i / COLUMNS][i % COLUMNS]
}

fn numbers_in(row: &[usize]) -> usize
    ensures { result ≡ length row.now }
{
    row.len()
}

// That each row has its numbers, which the type says of a row that is lent, and only of that one: no work is done here.
#[tactic(auto, using(crate::proofs::IndexLaws::seen_laws))]
pub(crate) fn see_rows(table: &Table)
    ensures { Roomy table.now }
{
    for k in 0..ROWS {
        numbers_in(&table[k]);
    }
}

// The rows of lists from number `from` on made blank.
#[tactic(auto, using(crate::proofs::IndexLaws::clearing_laws))]
pub(crate) fn clear_rows(table: &mut Table, from: usize)
    requires { Roomy table.old }
    ensures { Cleared from table.old table.new }
{
    for k in from..LISTS {
        table[k] = [0usize; COLUMNS];
    }
}
