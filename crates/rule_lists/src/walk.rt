// The walk over a rule file and its includes. It keeps no rules, but where they stand: one walk notes the last entry for each first
// character and keeps every rule, and a second keeps those that stay.
ghost use Rattle.std.specs.Prelude.{◌≤◌};
ghost use Rattle.rule_lists.specs.InnerContracts.{InBundle, Ready, RuledIs, read_from, read_included, one_more, Walks};
ghost use Rattle.rule_lists.specs.InnerContracts.{SurveyIs, Surveyed, CountedAs, CollectIs};
ghost use Rattle.rule_lists.specs.Lists.{counted_rules};

use crate::lines::Row;
use crate::refused::Refused;
use crate::tables::{MOST_RULES, Spot};
use bundles::FileAt;
use refusals::Refusal;

// "include deeper than 8, or a 257th include followed in one list"
pub(crate) const MOST_NESTED: usize = 8;

const MOST_FOLLOWED: usize = 256;

// What a walk is for.
#[derive(Clone, Copy)]
pub(crate) enum Task {
    Survey,
    Collect,
}

// How many includes were followed, how many first characters were noted, and how many rules kept.
#[derive(Clone, Copy)]
pub(crate) struct State {
    pub(crate) followed: usize,
    pub(crate) noted: usize,
    pub(crate) kept: usize,
}

// A file to read: its number, where its content stands in the bundle, and how many more may be nested below it.
#[derive(Clone, Copy)]
pub(crate) struct Source {
    pub(crate) file: usize,
    pub(crate) start: usize,
    pub(crate) end: usize,
    pub(crate) left: usize,
}

// Where an include stands: its file and line, and how many files may be nested there.
#[derive(Clone, Copy)]
pub(crate) struct IncludeAt {
    pub(crate) file: usize,
    pub(crate) line: usize,
    pub(crate) left: usize,
}

// A rule is met in a file whose entry is `own`.
#[tactic(auto, using(crate::proofs::RuledLaws::ruled_laws))]
fn on_rule(
    bundle: &[u8],
    task: Task,
    own: usize,
    st: State,
    spot: Spot,
    lasts: &mut [u64; MOST_RULES],
    rows: &mut [Spot; MOST_RULES],
) -> State
    requires ready { Ready bundle.now task st lasts.old rows.old }
    requires own_bound { own ≤ 256 }
    ensures { RuledIs bundle.now task own st spot lasts.old rows.old result lasts.new rows.new }
{
    let code = spot.code;
    match task {
        Task::Survey => State {
            followed: st.followed,
            noted: crate::tables::note(lasts, st.noted, code, own),
            kept: crate::tables::add_row(rows, st.kept, spot),
        },
        Task::Collect => {
            if crate::tables::stays(lasts, st.noted, code, st.followed) {
                State {
                    kept: crate::tables::add_row(rows, st.kept, spot),
                    ..st
                }
            } else {
                st
            }
        }
    }
}

// Reads the file of an include's name, where it may be nested and is one of the list's first 256, and is in the bundle.
#[cycle(follow_walk)]
#[tactic(auto, using(crate::proofs::FollowLaws::follow_laws))]
fn follow(
    at: IncludeAt,
    task: Task,
    bundle: &[u8],
    names: &[u8],
    name: &[u8],
    st: State,
    lasts: &mut [u64; MOST_RULES],
    rows: &mut [Spot; MOST_RULES],
) -> Result<State, Refused>
    requires { Ready bundle.now task st lasts.old rows.old }
    ensures { Walks bundle.now task (one_more st)
        (read_included bundle.now names.now at name.now st.followed)
        lasts.old rows.old result lasts.new rows.new }
{
    let left = at.left;
    let followed = st.followed;
    if left == 0 || MOST_FOLLOWED <= followed {
        return Err(Refused {
            why: Refusal::IncludeTooDeep,
            line: at.line,
            file: at.file,
        });
    }
    match bundles::find_file(bundle, name) {
        Some(FileAt { number, start, end }) => {
            let source = Source {
                file: number,
                start,
                end,
                left: left - 1,
            };
            let more = State {
                followed: followed + 1,
                ..st
            };
            walk(source, task, bundle, names, more, lasts, rows)
        }
        None => Err(Refused {
            why: Refusal::FileMissing,
            line: at.line,
            file: at.file,
        }),
    }
}

// Reads a file line by line; its own entry is the last that was followed.
#[cycle(follow_walk)]
#[tactic(auto, using(crate::proofs::GoingLaws::going_laws))]
fn walk(
    source: Source,
    task: Task,
    bundle: &[u8],
    names: &[u8],
    st0: State,
    lasts: &mut [u64; MOST_RULES],
    rows: &mut [Spot; MOST_RULES],
) -> Result<State, Refused>
    requires in_bundle { InBundle bundle.now source }
    requires ready { Ready bundle.now task st0 lasts.old rows.old }
    ensures { Walks bundle.now task st0 (read_from bundle.now names.now source st0.followed)
        lasts.old rows.old result lasts.new rows.new }
{
    let start = source.start;
    let end = source.end;
    let s = &bundle[start..end];
    let mut st = st0;
    let mut p: usize = 0;
    let mut line: usize = 1;
    // Stays a loop by hand: what was read says where the next line begins, and a refusal tells the line.
    while p < s.len() {
        match crate::lines::row_at(names, s, p) {
            Ok(Row::Passed { lines, next }) => {
                line += lines;
                p = next;
            }
            Ok(Row::Rule { code, next }) => {
                let spot = Spot {
                    code,
                    start: source.start,
                    end: source.end,
                    place: p,
                };
                st = on_rule(bundle, task, st0.followed, st, spot, lasts, rows);
                line += 1;
                p = next;
            }
            Ok(Row::Include { name, next }) => {
                let at = IncludeAt {
                    file: source.file,
                    line,
                    left: source.left,
                };
                let wanted = rules_parser::part(s, name);
                st = follow(at, task, bundle, names, wanted, st, lasts, rows)?;
                line += 1;
                p = next;
            }
            Err(why) => {
                return Err(Refused {
                    why,
                    line,
                    file: source.file,
                });
            }
        }
    }
    Ok(st)
}

// A list of so many rules, or the refusal.
#[tactic(auto, using(crate::specs::InnerContracts::few, crate::specs::InnerContracts::many))]
fn counted(n: usize) -> Result<usize, Refused>
    ensures { CountedAs n result }
{
    if MOST_RULES < n {
        Err(Refused {
            why: Refusal::TooMuch,
            line: 0,
            file: 0,
        })
    } else {
        Ok(n)
    }
}

// Notes the last entries of a listed file, and keeps where all its rules stand.
#[tactic(auto, using(crate::proofs::WalkLaws::collect_laws))]
fn survey(
    source: Source,
    bundle: &[u8],
    names: &[u8],
    lasts: &mut [u64; MOST_RULES],
    rows: &mut [Spot; MOST_RULES],
) -> Result<State, Refused>
    requires { InBundle bundle.now source }
    ensures { SurveyIs bundle.now (read_from bundle.now names.now source 0) result lasts.new rows.new }
{
    let fresh = State {
        followed: 0,
        noted: 0,
        kept: 0,
    };
    walk(source, Task::Survey, bundle, names, fresh, lasts, rows)
}

// Keeps where those rules stand that stay, of a listed file that was surveyed: all, where no include was followed.
#[tactic(auto, using(crate::proofs::WalkLaws::staying_laws))]
fn collect_surveyed(
    source: Source,
    surveyed: State,
    bundle: &[u8],
    names: &[u8],
    lasts: &mut [u64; MOST_RULES],
    rows: &mut [Spot; MOST_RULES],
) -> Result<usize, Refused>
    requires in_bundle { InBundle bundle.now source }
    requires surveyed { Surveyed bundle.now (read_from bundle.now names.now source 0) surveyed lasts.old rows.old }
    ensures { CollectIs bundle.now (counted_rules (read_from bundle.now names.now source 0)) result rows.new }
{
    let followed = surveyed.followed;
    let noted = surveyed.noted;
    if followed == 0 {
        return counted(surveyed.kept);
    }
    if MOST_RULES < noted {
        return Err(Refused {
            why: Refusal::TooMuch,
            line: 0,
            file: 0,
        });
    }
    let again = State {
        followed: 0,
        noted,
        kept: 0,
    };
    let state = walk(source, Task::Collect, bundle, names, again, lasts, rows)?;
    counted(state.kept)
}

// Keeps where the rules of a listed file stand, in the order in which they are met. Where no include is followed every rule stays, and
// one walk is enough.
#[tactic(auto, using(crate::proofs::WalkLaws::collect_laws))]
pub(crate) fn collect(
    source: Source,
    bundle: &[u8],
    names: &[u8],
    lasts: &mut [u64; MOST_RULES],
    rows: &mut [Spot; MOST_RULES],
) -> Result<usize, Refused>
    requires { InBundle bundle.now source }
    ensures { CollectIs bundle.now (counted_rules (read_from bundle.now names.now source 0)) result rows.new }
{
    let state = survey(source, bundle, names, lasts, rows)?;
    collect_surveyed(source, state, bundle, names, lasts, rows)
}
