// The lines of a rule file: what each says, or its fault.
ghost use Rattle.std.specs.Prelude.{◌≡◌};
ghost use Rattle.rule_lists.specs.InnerContracts.{row_told, row_at};

use refusals::Refusal;
use rules_parser::{Clause, FileKind, Item, Text};

// What stands at the beginning of a line that is good.
#[derive(Clone, Copy)]
pub(crate) enum Row {
    Passed { lines: usize, next: usize },
    Rule { code: u32, next: usize },
    Include { name: Text, next: usize },
}

// The rule of these texts of s, whose line ends at `next`.
#[tactic(auto, using(crate::proofs::LineLaws::row_laws))]
fn row_of(
    names: &[u8],
    s: &[u8],
    pattern: Text,
    left: Text,
    right: Text,
    expression: Text,
    next: usize,
) -> Result<Row, Refusal>
    ensures { result ≡ row_told names.now s.now pattern left right expression next }
{
    let first = rules_parser::part(s, pattern);
    match rule_lines::rule_fault(
        names,
        first,
        rules_parser::part(s, left),
        rules_parser::part(s, right),
        rules_parser::part(s, expression),
    ) {
        None => Ok(Row::Rule {
            code: rule::first_code(first),
            next,
        }),
        Some(why) => Err(why),
    }
}

// What begins at p, the beginning of a line of s.
#[tactic(auto, using(crate::proofs::LineLaws::row_laws), unfolding(crate::specs::InnerContracts::row_in))]
pub(crate) fn row_at(names: &[u8], s: &[u8], p: usize) -> Result<Row, Refusal>
    ensures { result ≡ row_at names.now s.now p }
{
    match rules_parser::read_item(FileKind::Rules, s, p) {
        Item::Passed { lines, next } => Ok(Row::Passed { lines, next }),
        Item::Tells { told, next } => match told {
            Clause::Rule {
                pattern,
                left,
                right,
                expression,
            } => row_of(names, s, pattern, left, right, expression, next),
            Clause::Include { name } => Ok(Row::Include { name, next }),
            Clause::Guess { .. } => Err(Refusal::LineUnreadable),
            Clause::Name { .. } => Err(Refusal::LineUnreadable),
        },
        Item::Wrong => Err(Refusal::LineUnreadable),
    }
}
