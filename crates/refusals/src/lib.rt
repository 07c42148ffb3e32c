// The refusals of document 01's table and of the requests of document 02, a name for each number.
#![tactic(auto)]

ghost use Rattle.std.specs.Prelude.{◌≡◌};
ghost use Rattle.refusals.specs.Numbers.{number_of};

#[derive(Clone, Copy)]
pub enum Refusal {
    NotUtf8,
    OutsideRange,
    NameTooLong,
    SettingUnknown,
    PackBroken,
    NoSuchLanguage,
    TextTooLong,
    TooManyTexts,
    NoRoom,
    BundleBroken,
    FileMissing,
    LineUnreadable,
    PatternEmpty,
    ExpressionWrong,
    OutsideForms,
    NameUnlisted,
    IncludeTooDeep,
    TooMuch,
    AnyMissing,
    BoxEmpty,
}

// The paper's number of a refusal.
#[tactic(auto, unfolding(crate::specs::Numbers::number_of))]
pub fn number_of(refusal: Refusal) -> u8
    ensures { result ≡ number_of refusal }
{
    match refusal {
        Refusal::NotUtf8 => 1,
        Refusal::OutsideRange => 2,
        Refusal::NameTooLong => 3,
        Refusal::SettingUnknown => 4,
        Refusal::PackBroken => 5,
        Refusal::NoSuchLanguage => 6,
        Refusal::TextTooLong => 7,
        Refusal::TooManyTexts => 8,
        Refusal::NoRoom => 9,
        Refusal::BundleBroken => 10,
        Refusal::FileMissing => 11,
        Refusal::LineUnreadable => 12,
        Refusal::PatternEmpty => 13,
        Refusal::ExpressionWrong => 14,
        Refusal::OutsideForms => 15,
        Refusal::NameUnlisted => 16,
        Refusal::IncludeTooDeep => 17,
        Refusal::TooMuch => 18,
        Refusal::AnyMissing => 19,
        Refusal::BoxEmpty => 20,
    }
}
