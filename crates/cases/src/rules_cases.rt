// The cases of the crates regex_optim, rule and lang.
use crate::said::{Said, Word};
use phonemes::ExpressionFault;
use regex_optim::OptimizedRegex;

// `left CONTEXT TEXT`, `right CONTEXT TEXT`: the context's form, and whether it fits the text before or after a place, or 15.
pub(crate) fn form(form: Option<OptimizedRegex>, fits: bool) -> Said<'static> {
    let Some(form) = form else {
        return Said::Count(Word::Plain, 15);
    };
    let word = match form {
        OptimizedRegex::AllStringsMatcher => Word::AllStrings,
        OptimizedRegex::IsEmpty => Word::IsEmpty,
        OptimizedRegex::Equals => Word::Equals,
        OptimizedRegex::StartsWith => Word::Starts,
        OptimizedRegex::EndsWith => Word::Ends,
        OptimizedRegex::EqualsChar => Word::EqualsChar,
        OptimizedRegex::StartsWithChar => Word::StartsChar,
        OptimizedRegex::EndsWithChar => Word::EndsChar,
    };
    Said::Count(word, usize::from(fits))
}

// `expr EXPRESSION NAMES`: the alternatives of an expression, or 14 or 16.
pub(crate) fn expression<'a>(e: &'a [u8], names: &'a [u8]) -> Said<'a> {
    match phonemes::check_expression(e, names) {
        Ok(count) => Said::Alternatives(count, e, names),
        Err(ExpressionFault::Malformed) => Said::Count(Word::Plain, 14),
        Err(ExpressionFault::UnlistedName) => Said::Count(Word::Plain, 16),
    }
}

// `guessing PATTERN NAME`: whether a guessing pattern matches a name, or 15.
pub(crate) fn guessing(pattern: &[u8], name: &[u8]) -> Said<'static> {
    if lang::check_pattern(pattern) {
        return Said::flag(lang::matches(pattern, name));
    }
    Said::Count(Word::Plain, 15)
}

// `rule PATTERN LEFT RIGHT TEXT PLACE`: whether a rule of these strings matches at a place, or 15 for a context outside the forms.
pub(crate) fn matched(
    pattern: &[u8],
    left: &[u8],
    right: &[u8],
    text: &[u8],
    place: usize,
) -> Said<'static> {
    if regex_optim::left_form(left).is_none() || regex_optim::right_form(right).is_none() {
        return Said::Count(Word::Plain, 15);
    }
    Said::flag(rule::rule_matches(pattern, left, right, text, place))
}
