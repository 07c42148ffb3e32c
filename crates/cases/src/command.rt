// The words of the cases, and the kinds of their fields.
use crate::fields::Kind;

#[derive(Clone, Copy, PartialEq, Eq)]
pub enum Command {
    Decode,
    Outside,
    Lower,
    Name,
    Guess,
    Pack,
    Bundle,
    Order,
    Same,
    Listed,
    Left,
    Right,
    Expr,
    Guessing,
    Narrow,
    Merge,
    Singleton,
    Single,
    Subtract,
    Rule,
    Check,
    Word,
    Spell,
    Given,
    Load,
    Lines,
}

impl Command {
    // The command that a word is.
    pub(crate) fn of(word: &[u8]) -> Option<Self> {
        Some(match word {
            b"decode" => Command::Decode,
            b"outside" => Command::Outside,
            b"lower" => Command::Lower,
            b"name" => Command::Name,
            b"guess" => Command::Guess,
            b"pack" => Command::Pack,
            b"bundle" => Command::Bundle,
            b"order" => Command::Order,
            b"same" => Command::Same,
            b"listed" => Command::Listed,
            b"left" => Command::Left,
            b"right" => Command::Right,
            b"expr" => Command::Expr,
            b"guessing" => Command::Guessing,
            b"narrow" => Command::Narrow,
            b"merge" => Command::Merge,
            b"singleton" => Command::Singleton,
            b"single" => Command::Single,
            b"subtract" => Command::Subtract,
            b"rule" => Command::Rule,
            b"check" => Command::Check,
            b"word" => Command::Word,
            b"spell" => Command::Spell,
            b"given" => Command::Given,
            b"load" => Command::Load,
            b"lines" => Command::Lines,
            _ => return None,
        })
    }

    // The kinds of its fields.
    pub(crate) fn kinds(self) -> &'static [Kind] {
        use Kind::{Bytes, Number, Set};
        match self {
            Command::Decode
            | Command::Outside
            | Command::Lower
            | Command::Name
            | Command::Guess
            | Command::Pack
            | Command::Bundle => &[Bytes],
            Command::Order
            | Command::Same
            | Command::Listed
            | Command::Left
            | Command::Right
            | Command::Expr
            | Command::Guessing => &[Bytes, Bytes],
            Command::Narrow | Command::Merge => &[Set, Set],
            Command::Singleton | Command::Single => &[Set],
            Command::Subtract | Command::Load => &[Number, Number],
            Command::Rule => &[Bytes, Bytes, Bytes, Bytes, Number],
            Command::Check => &[],
            Command::Word => &[Number, Number, Number, Number, Number, Number, Bytes],
            Command::Spell | Command::Lines => &[Number, Number, Number, Number, Number, Bytes],
            Command::Given => &[
                Number, Number, Number, Number, Number, Number, Number, Bytes,
            ],
        }
    }
}
