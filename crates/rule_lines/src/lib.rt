// One judgment of a rule: its first fault, and whether it may stand in a pack.
#![tactic(auto)]

ghost use Rattle.std.specs.Prelude.{◌≡◌, not};
ghost use Rattle.base.specs.Pick.{and};
ghost use Rattle.regex_optim.specs.Contexts.{left_form, right_form};
ghost use Rattle.rule_lines.specs.Rules.{rule, length_fault, context_fault, box_fault, contexts_fault, expression_fault, rule_fault, faultless, rule_good};
ghost use Rattle.rule_lines.specs.InnerContracts.{left_good, right_good, expression_good, strings_good};

use phonemes::ExpressionFault;
use refusals::Refusal;
use regex_optim::OptimizedRegex;

// The bytes that a string may have.
const LONGEST: usize = 255;

// An empty pattern, or a string that is too long.
#[tactic(auto, unfolding(crate::specs::Rules::length_fault, base::specs::Pick::pick))]
fn length_fault(pattern: usize, left: usize, right: usize, expression: usize) -> Option<Refusal>
    ensures { result ≡ length_fault pattern left right expression }
{
    if pattern == 0 {
        Some(Refusal::PatternEmpty)
    } else if LONGEST < pattern || LONGEST < left || LONGEST < right || LONGEST < expression {
        Some(Refusal::TooMuch)
    } else {
        None
    }
}

// A context outside the forms.
#[tactic(auto, unfolding(crate::specs::Rules::context_fault))]
fn context_fault(form: Option<OptimizedRegex>) -> Option<Refusal>
    ensures { result ≡ context_fault form }
{
    match form {
        Some(_) => None,
        None => Some(Refusal::OutsideForms),
    }
}

// A context that is a box of no characters, not negated: nothing fits it.
#[tactic(auto, unfolding(crate::specs::Rules::box_fault, base::specs::Pick::pick))]
fn box_fault(left: &[u8], right: &[u8]) -> Option<Refusal>
    ensures { result ≡ box_fault (left_form left.now) (right_form right.now) }
{
    if regex_optim::left_is_empty_box(left) || regex_optim::right_is_empty_box(right) {
        Some(Refusal::BoxEmpty)
    } else {
        None
    }
}

// The first fault of the contexts: 15 (left, then right), 20.
#[tactic(auto, using(crate::proofs::Laws::fault_laws), unfolding(crate::specs::Rules::contexts_fault, crate::specs::Rules::fault_else))]
fn contexts_fault(left: &[u8], right: &[u8]) -> Option<Refusal>
    ensures { result ≡ contexts_fault (left_form left.now) (right_form right.now) }
{
    match context_fault(regex_optim::left_form(left)) {
        Some(why) => Some(why),
        None => match context_fault(regex_optim::right_form(right)) {
            Some(why) => Some(why),
            None => box_fault(left, right),
        },
    }
}

// An expression that is not well formed, or a name that is not listed.
#[tactic(auto, unfolding(crate::specs::Rules::expression_fault))]
fn expression_fault(checked: Result<usize, ExpressionFault>) -> Option<Refusal>
    ensures { result ≡ expression_fault checked }
{
    match checked {
        Ok(_) => None,
        Err(ExpressionFault::Malformed) => Some(Refusal::ExpressionWrong),
        Err(ExpressionFault::UnlistedName) => Some(Refusal::NameUnlisted),
    }
}

// The first fault of a rule whose strings are texts, in the order 13, 18, 15 (left, then right), 20, 14, 16.
#[tactic(auto, using(crate::proofs::Laws::fault_laws), unfolding(crate::specs::Rules::rule_fault, crate::specs::Rules::fault_else))]
pub fn rule_fault(
    names: &[u8],
    pattern: &[u8],
    left: &[u8],
    right: &[u8],
    expression: &[u8],
) -> Option<Refusal>
    ensures { result ≡ rule_fault names.now (rule pattern.now left.now right.now expression.now) }
{
    match length_fault(pattern.len(), left.len(), right.len(), expression.len()) {
        Some(why) => Some(why),
        None => match contexts_fault(left, right) {
            Some(why) => Some(why),
            None => expression_fault(phonemes::check_expression(expression, names)),
        },
    }
}

#[tactic(auto, unfolding(crate::specs::Rules::faultless))]
fn is_faultless(fault: Option<Refusal>) -> bool
    ensures { result ≡ faultless fault }
{
    fault.is_none()
}

// Whether a context may stand in a pack, by whether it is an empty box and by its form.
#[tactic(auto, unfolding(base::specs::Pick::and))]
fn context_good(empty_box: bool, form: Option<OptimizedRegex>) -> bool
    ensures { result ≡ and (not empty_box) (faultless (context_fault form)) }
{
    !empty_box && is_faultless(context_fault(form))
}

// Whether a left context is a text in one of the forms, and no empty box; a visible literal is.
#[tactic(auto, using(crate::proofs::Laws::context_laws), unfolding(crate::specs::InnerContracts::left_good, base::specs::Pick::and))]
fn left_good(left: &[u8]) -> bool
    ensures { result ≡ left_good left.now }
{
    rule::is_visible_literal(left)
        || rule::is_rule_text(left)
            && context_good(
                regex_optim::left_is_empty_box(left),
                regex_optim::left_form(left),
            )
}

// Whether a right context is.
#[tactic(auto, using(crate::proofs::Laws::context_laws), unfolding(crate::specs::InnerContracts::right_good, base::specs::Pick::and))]
fn right_good(right: &[u8]) -> bool
    ensures { result ≡ right_good right.now }
{
    rule::is_visible_literal(right)
        || rule::is_rule_text(right)
            && context_good(
                regex_optim::right_is_empty_box(right),
                regex_optim::right_form(right),
            )
}

// Whether an expression is a text without a fault; of a visible literal only the round brackets matter.
#[tactic(auto, using(crate::proofs::Laws::string_laws), unfolding(crate::specs::InnerContracts::expression_good, base::specs::Pick::and))]
fn expression_good(names: &[u8], expression: &[u8]) -> bool
    ensures { result ≡ expression_good names.now expression.now }
{
    if rule::is_visible_literal(expression) {
        !texts::first_is(expression, b'(') || texts::last_is(expression, b')')
    } else {
        rule::is_rule_text(expression)
            && is_faultless(expression_fault(phonemes::check_expression(expression, names)))
    }
}

// Whether the strings of a rule are texts, and none of them but for its length is at fault.
#[tactic(auto, unfolding(crate::specs::InnerContracts::strings_good, base::specs::Pick::and))]
fn strings_good(names: &[u8], pattern: &[u8], left: &[u8], right: &[u8], expression: &[u8]) -> bool
    ensures { result ≡ strings_good names.now (rule pattern.now left.now right.now expression.now) }
{
    rule::is_rule_text(pattern)
        && left_good(left)
        && right_good(right)
        && expression_good(names, expression)
}

// Whether a rule may stand in a pack: each string is a text, and it has no fault. Most strings are known by their bytes.
#[tactic(auto, using(crate::proofs::Laws::good_is), unfolding(base::specs::Pick::and))]
pub fn rule_good(names: &[u8], pattern: &[u8], left: &[u8], right: &[u8], expression: &[u8]) -> bool
    ensures { result ≡ rule_good names.now (rule pattern.now left.now right.now expression.now) }
{
    is_faultless(length_fault(pattern.len(), left.len(), right.len(), expression.len()))
        && strings_good(names, pattern, left, right, expression)
}
