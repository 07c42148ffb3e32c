// The lists in pack order: "for each language rules, approx, exact, then common approx, common exact".
ghost use Rattle.std.specs.Prelude.{◌≤◌, length};
ghost use Rattle.writing.specs.InnerContracts.{Put};
ghost use Rattle.strings.specs.Reading.{strings_of};
ghost use Rattle.pack_bytes.specs.Bytes.{list_bytes};
ghost use Rattle.rule_lists.specs.Lists.{list_named, lists_of, two_of, three_of, list_files, type_prefix, common_part};
ghost use Rattle.rule_lists.specs.InnerContracts.{WritesTo, WrittenIs};
ghost use Rattle.rule_lists.specs.WritingContracts.{list_part, list_name};
ghost use Rattle.held.specs.Met.{bytes_of_all};
ghost use Rattle.bundles.specs.InnerContracts.{files_of};

use crate::list_writing::Written;
use crate::refused::Refused;
use crate::tables::{MOST_RULES, Spot};
use crate::walk::Source;
use bundles::FileAt;
use prefixes::NameType;
use refusals::Refusal;
use strings::Span;

// The lists of a language.
#[derive(Clone, Copy)]
pub(crate) enum ListKind {
    Rules,
    Approx,
    Exact,
}

// What a list's file is named by, but for the language.
#[derive(Clone, Copy)]
pub(crate) struct ListName {
    pub(crate) kind: NameType,
    pub(crate) list: ListKind,
}

// What a table of spots begins with.
const NOWHERE: Spot = Spot {
    code: 0,
    start: 0,
    end: 0,
    place: 0,
};

// The most bytes of a name: those of a language's string, and 11.
const NAME: usize = 320;

// Writes the list of a listed file.
#[tactic(auto, using(crate::proofs::FileLaws::file_laws))]
fn write_list(
    bundle: &[u8],
    names: &[u8],
    wanted: &[u8],
    lasts: &mut [u64; MOST_RULES],
    rows: &mut [Spot; MOST_RULES],
    out: &mut [u8],
    at: usize,
) -> Result<usize, Refused>
    ensures { WritesTo list_bytes (list_named names.now (files_of bundle.now) wanted.now) out.old
        out.new at result }
{
    match bundles::find_file(bundle, wanted) {
        Some(FileAt { number, start, end }) => {
            let source = Source {
                file: number,
                start,
                end,
                left: crate::walk::MOST_NESTED,
            };
            let n = crate::walk::collect(source, bundle, names, lasts, rows)?;
            Ok(crate::list_writing::put_sorted(bundle, rows, n, lasts, out, at))
        }
        None => Err(Refused {
            why: Refusal::FileMissing,
            line: 0,
            file: 0,
        }),
    }
}

// Writes the name of a type.
#[tactic(auto, using(crate::proofs::ListLaws::name_laws), unfolding(crate::specs::Lists::type_prefix))]
fn put_type(kind: NameType, out: &mut [u8], at: usize) -> usize
    ensures { Put out.old out.new at result (type_prefix kind) }
{
    match kind {
        NameType::Ashkenazi => writing::copy(b"ash", out, at),
        NameType::Generic => writing::copy(b"gen", out, at),
        NameType::Sephardic => writing::copy(b"sep", out, at),
    }
}

// Writes the name of a list.
#[tactic(auto, using(crate::proofs::ListLaws::name_laws), unfolding(crate::specs::WritingContracts::list_part))]
fn put_list(list: ListKind, out: &mut [u8], at: usize) -> usize
    ensures { Put out.old out.new at result (list_part list) }
{
    match list {
        ListKind::Rules => writing::copy(b"_rules_", out, at),
        ListKind::Approx => writing::copy(b"_approx_", out, at),
        ListKind::Exact => writing::copy(b"_exact_", out, at),
    }
}

// Writes the list of a language, or of `common`.
#[tactic(auto, using(crate::proofs::ListLaws::name_laws))]
fn write_named(
    name: ListName,
    bundle: &[u8],
    names: &[u8],
    language: &[u8],
    lasts: &mut [u64; MOST_RULES],
    rows: &mut [Spot; MOST_RULES],
    out: &mut [u8],
    at: usize,
) -> Result<usize, Refused>
    requires { length language.now ≤ 255 }
    ensures { WritesTo list_bytes (list_named names.now (files_of bundle.now) (list_name name language.now))
        out.old out.new at result }
{
    let kind = name.kind;
    let list = name.list;
    let mut wanted = [0u8; NAME];
    let p = put_type(kind, &mut wanted, 0);
    let q = put_list(list, &mut wanted, p);
    let n = writing::copy(language, &mut wanted, q);
    write_list(bundle, names, &wanted[0..n], lasts, rows, out, at)
}

// The approximate and the exact list of a language, or of `common`.
#[tactic(auto, using(crate::proofs::ListLaws::list_laws), unfolding(crate::specs::Lists::two_of, crate::specs::WritingContracts::list_name, crate::specs::WritingContracts::list_part))]
fn write_two(
    kind: NameType,
    bundle: &[u8],
    names: &[u8],
    language: &[u8],
    lasts: &mut [u64; MOST_RULES],
    rows: &mut [Spot; MOST_RULES],
    out: &mut [u8],
    at: usize,
) -> Result<usize, Refused>
    requires { length language.now ≤ 255 }
    ensures { WritesTo (bytes_of_all list_bytes)
        (lists_of names.now (files_of bundle.now) (two_of (type_prefix kind) language.now)) out.old
        out.new at result }
{
    let approx = ListName {
        kind,
        list: ListKind::Approx,
    };
    let exact = ListName {
        kind,
        list: ListKind::Exact,
    };
    let p = write_named(approx, bundle, names, language, lasts, rows, out, at)?;
    write_named(exact, bundle, names, language, lasts, rows, out, p)
}

// The three lists of a language.
#[tactic(auto, using(crate::proofs::ListLaws::list_laws), unfolding(crate::specs::Lists::three_of, crate::specs::WritingContracts::list_name, crate::specs::WritingContracts::list_part))]
fn write_three(
    kind: NameType,
    bundle: &[u8],
    names: &[u8],
    language: &[u8],
    lasts: &mut [u64; MOST_RULES],
    rows: &mut [Spot; MOST_RULES],
    out: &mut [u8],
    at: usize,
) -> Result<usize, Refused>
    requires { length language.now ≤ 255 }
    ensures { WritesTo (bytes_of_all list_bytes)
        (lists_of names.now (files_of bundle.now) (three_of (type_prefix kind) language.now)) out.old
        out.new at result }
{
    let rules = ListName {
        kind,
        list: ListKind::Rules,
    };
    let p = write_named(rules, bundle, names, language, lasts, rows, out, at)?;
    write_two(kind, bundle, names, language, lasts, rows, out, p)
}

// The two common lists.
fn write_common(
    kind: NameType,
    bundle: &[u8],
    names: &[u8],
    lasts: &mut [u64; MOST_RULES],
    rows: &mut [Spot; MOST_RULES],
    out: &mut [u8],
    at: usize,
) -> Result<usize, Refused>
    ensures { WritesTo (bytes_of_all list_bytes)
        (lists_of names.now (files_of bundle.now) (two_of (type_prefix kind) common_part)) out.old out.new at result }
{
    write_two(kind, bundle, names, b"common", lasts, rows, out, at)
}

// The lists of each language, and the common ones.
#[tactic(auto, using(crate::proofs::ListLaws::all_laws))]
fn write_all(
    kind: NameType,
    bundle: &[u8],
    names: &[u8],
    lasts: &mut [u64; MOST_RULES],
    rows: &mut [Spot; MOST_RULES],
    out: &mut [u8],
    at: usize,
) -> Result<usize, Refused>
    ensures { WritesTo (bytes_of_all list_bytes)
        (lists_of names.now (files_of bundle.now) (list_files (type_prefix kind) (strings_of names.now))) out.old
        out.new at result }
{
    let mut from: usize = 0;
    let mut place = at;
    while let Some(Span { start, end }) = strings::string_at(names, from) {
        let language = &names[start..end];
        place = write_three(kind, bundle, names, language, lasts, rows, out, place)?;
        from = end;
    }
    write_common(kind, bundle, names, lasts, rows, out, place)
}

// Writes what fits of the lists of a type from a place on: the rule files in `bundle`, for the languages of `names`, strings behind
// their length bytes. The end is told, or the first refusal: then nothing is said of `out`, which may hold the lists before it. Public
// for crate loader alone, which measures into a buffer of its own first, so that a refusal of `load` leaves its caller's as it was.
#[tactic(auto, using(crate::proofs::ListLaws::public_laws))]
pub fn write_lists(
    kind: NameType,
    bundle: &[u8],
    names: &[u8],
    out: &mut [u8],
    at: usize,
) -> Written
    ensures { WrittenIs (bytes_of_all list_bytes)
        (lists_of names.now (files_of bundle.now) (list_files (Rattle.rule_lists.specs.Lists.type_prefix kind) (strings_of names.now)))
        out.old out.new at result }
{
    let mut lasts = [0u64; MOST_RULES];
    let mut rows = [NOWHERE; MOST_RULES];
    match write_all(kind, bundle, names, &mut lasts, &mut rows, out, at) {
        Ok(at) => Written::Done { at },
        Err(Refused { why, line, file }) => Written::Refused { why, line, file },
    }
}
