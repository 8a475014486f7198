// Names of a header: the first that repeats an earlier one, by the rule of any dialect.
//
// Names are compared by their keys (§6.6): their content, with case folded as the rule requires. A name in a file is decoded into a room
// each time it is compared: at most 64 passes over a header of at most 4,096 bytes, and no room for all names at once. A name given as
// content is compared where it lies, however long.
//
// The definition is `name_key` of model's specs/rules/Records.antt, byte by byte in specs/Keys.antt. Another rule for upper and lower case
// changes `fold_byte`, `folded` there and the laws of a key in proofs/Keys.antt; one that changes a name's length changes `same_name` too.
ghost use Rattle.std.specs.Prelude.{◌≡◌, List, ℕ, ◌<◌, ◌≤◌, length, get_or};
ghost use Rattle.model.specs.declared.Fault.{Fault};
ghost use Rattle.model.specs.rules.Base.{same};
ghost use Rattle.model.specs.rules.Decode.{content_of};
ghost use Rattle.model.specs.rules.Records.{name_key, among, repeat_fault};
ghost use Rattle.model.specs.rules.Report.{MAXRECORD};
ghost use Rattle.cell_decoder.specs.declared.source.Source.TheVariants.{File};
ghost use Rattle.cell_decoder.specs.Sources.{content_by, cells_in};
ghost use Rattle.record_check.specs.Keys.{folded, Short, NamesIn, key_at, keys_before, repeated_as};

use cell_decoder::source::Source;
use codes::MAX_RECORD;
use model::Dialect;

mod content;

// ---- two names

// A byte of a name with case folded by a dialect's rule: TDIF takes A to Z as a to z (§4.10).
fn fold_byte(rule: Dialect, b: u8) -> u8
    ensures { result ≡ folded rule b }
{
    match rule {
        Dialect::Tdif => b.to_ascii_lowercase(),
        Dialect::Csvj | Dialect::CsvPlus(_) => b,
    }
}

// Whether two names are the same by a rule. The one place that folds.
fn same_name(rule: Dialect, a: &[u8], b: &[u8]) -> bool
    ensures { result ≡ same (name_key rule a.now) (name_key rule b.now) }
{
    a.len() == b.len()
        && a.iter()
            .zip(b)
            .all(|(x, y)| fold_byte(rule, *x) == fold_byte(rule, *y))
}

// Whether the name in a cell of a file is this one. The room is for its content.
fn is_in_file(d: Dialect, rule: Dialect, name: &[u8], raw: &[u8], room: &mut [u8]) -> bool
    requires { (length raw.now ≤ MAXRECORD) × (length room.old ≡ MAXRECORD) }
    ensures { result ≡ same (name_key rule name.now) (name_key rule (content_of d raw.now)) }
{
    let size = content::write_content(d, raw, room);
    same_name(rule, name, &room[..size])
}

// Whether the name in a cell is this one.
fn is_name(src: Source, rule: Dialect, name: &[u8], raw: &[u8], room: &mut [u8]) -> bool
    requires { Short src (length raw.now) × (length room.old ≡ MAXRECORD) }
    ensures { result ≡ same (name_key rule name.now) (name_key rule (content_by src raw.now)) }
{
    match src {
        Source::File(d) => is_in_file(d, rule, name, raw, room),
        Source::Contents => same_name(rule, name, raw),
    }
}

// ---- names of a header

// Whether one of the first n cells has this name, from the latest to the first.
fn is_among(
    src: Source,
    rule: Dialect,
    name: &[u8],
    s: &[u8],
    starts: &[usize],
    ends: &[usize],
    n: usize,
) -> bool
    requires names_in { NamesIn src s.now starts.now ends.now }
    requires n_in_bounds { n ≤ length starts.now }
    ensures { result ≡ among (name_key rule name.now) (keys_before src rule s.now starts.now ends.now n) }
{
    let mut room = [0u8; MAX_RECORD];
    for j in (0..n).rev() {
        let from = starts[j];
        let upto = ends[j];
        if is_name(src, rule, name, &s[from..upto], &mut room) {
            return true;
        }
    }
    false
}

// Whether the name of cell n of a file, which is raw, repeats an earlier one. It has a room, which names given as contents do not need.
#[inline(never)]
fn repeats_in_file(
    d: Dialect,
    rule: Dialect,
    raw: &[u8],
    s: &[u8],
    starts: &[usize],
    ends: &[usize],
    n: usize,
) -> bool
    requires raw_len_bound { length raw.now ≤ MAXRECORD }
    requires names_in { NamesIn (File d) s.now starts.now ends.now }
    requires n_in_bounds { n ≤ length starts.now }
    ensures { result ≡ among (name_key rule (content_of d raw.now))
        (keys_before (File d) rule s.now starts.now ends.now n) }
{
    let mut room = [0u8; MAX_RECORD];
    let size = content::write_content(d, raw, &mut room);
    is_among(Source::File(d), rule, &room[..size], s, starts, ends, n)
}

// Whether the name of cell n repeats an earlier one.
fn repeats(src: Source, rule: Dialect, s: &[u8], starts: &[usize], ends: &[usize], n: usize) -> bool
    requires names_in { NamesIn src s.now starts.now ends.now }
    requires n_in_bounds { n < length starts.now }
    ensures { result ≡ among (key_at src rule s.now (get_or starts.now n 0) (get_or ends.now n 0))
        (keys_before src rule s.now starts.now ends.now n) }
{
    let from = starts[n];
    let upto = ends[n];
    match src {
        Source::File(d) => repeats_in_file(d, rule, &s[from..upto], s, starts, ends, n),
        Source::Contents => is_among(src, rule, &s[from..upto], s, starts, ends, n),
    }
}

// The column of the first name that repeats an earlier one by this rule, which need not be that of the dialect in which the names are encoded. The
// caller chooses the fault: 6 by the rule of the source, 9 by that of the target (§6.6 §8.4).
pub fn first_repeat(
    src: Source,
    rule: Dialect,
    s: &[u8],
    starts: &[usize],
    ends: &[usize],
) -> Option<usize>
    requires { NamesIn src s.now starts.now ends.now }
    ensures { (fault : ℕ → Fault) (kinds : List ℕ) → length kinds ≡ length starts.now
        → repeated_as fault result ≡ repeat_fault rule fault (cells_in src s.now starts.now ends.now kinds) }
{
    for n in 0..starts.len() {
        if repeats(src, rule, s, starts, ends, n) {
            return Some(n + 1);
        }
    }
    None
}
