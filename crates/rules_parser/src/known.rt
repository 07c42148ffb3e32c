// The strings of a line that was read before and is a rule: nothing of it is judged again.
ghost use Rattle.std.specs.Prelude.{◌≡◌, ◌+◌, ◌≤◌, length};
ghost use Rattle.rules_parser.specs.InnerContracts.{string_from, strings_from};

use crate::fields::Text;

// The four strings of a rule.
#[derive(Clone, Copy)]
pub struct Strings {
    pub pattern: Text,
    pub left: Text,
    pub right: Text,
    pub expression: Text,
}

// What stands between the next two quotes from p on.
#[tactic(auto, using(crate::proofs::RuleStrings::strings))]
fn string_from(s: &[u8], p: usize) -> Text
    ensures value { result ≡ string_from s.now p }
    ensures len_in_bounds { result.start + result.len ≤ length s.now }
{
    let q = crate::fields::find_quote(s, p);
    if q < s.len() {
        let e = crate::fields::find_quote(s, q + 1);
        Text {
            start: q + 1,
            len: e - (q + 1),
        }
    } else {
        Text { start: 0, len: 0 }
    }
}

// The next four strings from p on: those of the rule, where the line that begins at p is one.
#[tactic(auto, using(crate::proofs::RuleStrings::strings))]
pub fn rule_strings(s: &[u8], p: usize) -> Strings
    ensures { result ≡ strings_from s.now p }
{
    let pattern = string_from(s, p);
    let left = string_from(s, pattern.start + pattern.len + 1);
    let right = string_from(s, left.start + left.len + 1);
    let expression = string_from(s, right.start + right.len + 1);
    Strings {
        pattern,
        left,
        right,
        expression,
    }
}
