// The face for C: the functions of crate beider_morse, their answers as numbers.
#![tactic(auto)]

mod flat;

pub use flat::{bm_check, bm_load, bm_spell, bm_spell_given, bm_spell_lines};
