// How a pass works, and in which sets a final one does.
ghost use Rattle.std.specs.Prelude.{◌≤◌, ◌<◌, ◌≢◌};

// By the rules of which list, up to which limit, whether it appends what no rule matches, and where the pack's names end. No set has more
// texts than the limit may be.
#[derive(Clone, Copy)]
pub(crate) struct Pass {
    pub(crate) list: usize,
    pub(crate) limit: usize,
    pub(crate) appends: bool,
    pub(crate) guesses: usize,
    ghost few: { limit ≤ 256 },
}

// The sets of a final pass, all different: the old texts, the result, and two to run a text in.
#[derive(Clone, Copy)]
pub(crate) struct FinalSets {
    pub(crate) old: usize,
    pub(crate) result: usize,
    pub(crate) x: usize,
    pub(crate) y: usize,
    ghost old_known: { old < 4 },
    ghost result_known: { result < 4 },
    ghost x_known: { x < 4 },
    ghost y_known: { y < 4 },
    ghost old_result: { old ≢ result },
    ghost old_x: { old ≢ x },
    ghost old_y: { old ≢ y },
    ghost result_x: { result ≢ x },
    ghost result_y: { result ≢ y },
    ghost x_y: { x ≢ y },
}
