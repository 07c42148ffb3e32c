// Language names, and the bit of a name by its place in a list.
ghost use Rattle.std.specs.Prelude.{◌≡◌};
ghost use Rattle.std.specs.List.{list_all};
ghost use Rattle.std.specs.Char.{is_ascii_lowercase};
ghost use Rattle.languages.specs.Names.{language_name, language_bit};
ghost use Rattle.languages.specs.Numbers.{listed_numbers};

use strings::Span;

// Whether s is letters a to z alone.
fn all_letters(s: &[u8]) -> bool
    ensures { result ≡ list_all is_ascii_lowercase s.now }
{
    s.iter().all(u8::is_ascii_lowercase)
}

// A language name: 1 to 24 letters, but not `common`.
#[tactic(auto, using(crate::proofs::NameLaws::name_laws), unfolding(crate::specs::Names::language_name))]
pub fn is_language_name(s: &[u8]) -> bool
    ensures { result ≡ language_name s.now }
{
    1 <= s.len() && s.len() <= 24 && !letters::same(s, b"common") && all_letters(s)
}

// The bit of `name`, if it is listed: 2 to the place of the first string that is `name`, among the first 32 that `names` holds.
#[tactic(auto, using(crate::proofs::NameLaws::find_laws, crate::proofs::NumberLaws::listed_told))]
pub fn find_language(names: &[u8], name: &[u8]) -> Option<u32>
    ensures { listed_numbers result ≡ listed_numbers (language_bit names.now name.now) }
{
    let mut at: usize = 0;
    for place in 0..32u32 {
        let Span { start, end } = strings::string_at(names, at)?;
        if letters::same(&names[start..end], name) {
            return Some(1 << place);
        }
        at = end;
    }
    None
}
