// Sets of languages, a bit for each listed one: narrowing is `&`, merging is `|`, subtracting is `&` with the complement.
ghost use Rattle.languages.specs.InnerContracts.{coded, codes_narrowed, codes_merged};
ghost use Rattle.std.specs.Prelude.{◌≡◌};
ghost use Rattle.languages.specs.Numbers.{set_numbers};
ghost use Rattle.languages.specs.Sets.{merged, is_single, single_of, without};

#[derive(Clone, Copy)]
pub enum LanguageSet {
    Any,
    NoLanguages,
    SomeLanguages(u32),
}

// The number of Some with no bits: the languages stand below it.
const SOME_LANGUAGES: u64 = 0x1_0000_0000;

// The number of Any: every language, the bit of Some, and one of its own.
const ANY_LANGUAGE: u64 = 0x3_FFFF_FFFF;

impl LanguageSet {
    // This set merged with `other`.
    #[tactic(auto, using(crate::proofs::NumberLaws::set_told), unfolding(crate::specs::Sets::merged))]
    pub fn merge(self, other: LanguageSet) -> LanguageSet
        ensures { set_numbers result ≡ set_numbers (merged self other) }
    {
        match (self, other) {
            (LanguageSet::Any, _) | (_, LanguageSet::Any) => LanguageSet::Any,
            (LanguageSet::NoLanguages, set) | (set, LanguageSet::NoLanguages) => set,
            (LanguageSet::SomeLanguages(mine), LanguageSet::SomeLanguages(theirs)) =>
                LanguageSet::SomeLanguages(mine | theirs),
        }
    }

    #[tactic(auto, unfolding(crate::specs::Sets::is_single))]
    pub fn is_singleton(self) -> bool
        ensures { result ≡ is_single self }
    {
        matches!(self, LanguageSet::SomeLanguages(mask) if mask.count_ones() == 1)
    }

    // The one language of a single set: the place of its one bit.
    #[tactic(auto, using(base::proofs::PickLaws::cases), unfolding(crate::specs::Sets::single_of))]
    pub fn single(self) -> Option<u32>
        ensures { result ≡ single_of self }
    {
        match self {
            LanguageSet::SomeLanguages(mask) if mask.count_ones() == 1 => Some(
                mask.trailing_zeros(),
            ),
            _ => None,
        }
    }
}

// The languages of `mask` that are not in `less`.
#[tactic(auto, unfolding(crate::specs::Sets::without))]
pub fn subtract(mask: u32, less: u32) -> u32
    ensures { result ≡ without mask less }
{
    mask & !less
}

// The set as one number, the form in which sets are held in use.
#[tactic(auto, unfolding(crate::specs::InnerContracts::coded))]
pub fn coded(set: LanguageSet) -> u64
    ensures { result ≡ coded set }
{
    match set {
        LanguageSet::Any => ANY_LANGUAGE,
        LanguageSet::NoLanguages => 0,
        LanguageSet::SomeLanguages(mask) => SOME_LANGUAGES + u64::from(mask),
    }
}

// What is left of a set narrowed by another, of their numbers; none where that is empty. No other code narrows a set or asks whether one is empty.
#[tactic(auto, using(base::proofs::PickLaws::cases), unfolding(crate::specs::InnerContracts::codes_narrowed))]
pub fn narrow_codes(a: u64, b: u64) -> Option<u64>
    ensures { result ≡ codes_narrowed a b }
{
    let both = a & b;
    (both % SOME_LANGUAGES != 0).then_some(both)
}

// The number of two sets merged, of their numbers.
#[tactic(auto, unfolding(crate::specs::InnerContracts::codes_merged))]
pub fn merge_codes(a: u64, b: u64) -> u64
    ensures { result ≡ codes_merged a b }
{
    a | b
}
