// The target's checks of a complete record, the reasons of fault 9 in order (§8.1): a header has cells, the target can represent each cell,
// names differ by its rule, and the text is within the limits. In: the spans and kinds of the cells. Out: the first fault, or the length of
// the record's text, which is measured and not written.
//
// The definition is `target_fault` of model's specs/rules/Records.antt, over the cells of the lists (cell_decoder's specs/Sources.antt). A
// reason that changes there changes its function here and its law in proofs/Reasons.antt.
#![tactic(auto)]

ghost use Rattle.std.specs.Prelude.{◌≡◌, not, ◌&&◌, List, ◌++◌, ℕ, ◌+◌, ◌≤◌, length, true, false};
ghost use Rattle.model.specs.rules.Base.{Bytes, is_empty};
ghost use Rattle.model.specs.rules.Dialect.{is_csvj, into};
ghost use Rattle.model.specs.rules.Text.{Value, record_text, ending};
ghost use Rattle.model.specs.rules.Records.{◌or_else◌, uncarried_from, clash_fault, target_fault};
ghost use Rattle.model.specs.rules.Report.{MAXFILE, MAXRECORD};
ghost use Rattle.buffer.specs.Writes.{measure};
ghost use Rattle.cell_decoder.specs.declared.source.Source.TheVariants.{File};
ghost use Rattle.cell_decoder.specs.Sources.{cells_in, Cells};
ghost use Rattle.record_check.specs.Keys.{NamesIn};
ghost use Rattle.record_check.specs.SourceFault.{source_fault};
ghost use Rattle.record_writer.specs.CleanRecord.{CleanRecord};
ghost use Rattle.std.specs.Result.{result_and};
ghost use Rattle.record_target.specs.Sized.{length_fault};

use cell_decoder::source::Source;
use codes::{MAX_FILE, MAX_RECORD};
use model::{Dialect, Fault};
use record_writer::record::RecordText;
use record_writer::{line, record};

// ---- cells

// Whether a header without cells can't be written.
fn lacks_cells(t: Dialect, header: bool, cells: usize) -> bool
    ensures { (vs : List Value) → length vs ≡ cells → result ≡ (header && is_empty vs && not (is_csvj t)) }
{
    header && cells == 0 && !matches!(t, Dialect::Csvj)
}

// How long the record's text is, and the first cell that the target can't represent. Below it lies a room for a cell, which the search
// for a repeated name does not need as well.
#[inline(never)]
fn measure(
    src: Source,
    t: Dialect,
    s: &[u8],
    starts: &[usize],
    ends: &[usize],
    kinds: &[u8],
    header: bool,
    clean: bool,
) -> RecordText
    requires cells { Cells src s.now starts.now ends.now kinds.now }
    requires clean_record { clean ≡ true → CleanRecord s.now starts.now ends.now src header }
    ensures end_value { result.end ≡ measure (length
        (record_text (into t) header (cells_in src s.now starts.now ends.now kinds.now))) }
    ensures carries_value { result.carries ≡ uncarried_from t 1 (cells_in src s.now starts.now ends.now kinds.now) }
{
    let mut nothing = [0u8; 1];
    line::write_text(
        src,
        t,
        s,
        starts,
        ends,
        kinds,
        header,
        clean,
        &mut nothing,
        0,
        false,
    )
}

// The first name of a header that repeats an earlier one by the target's rule.
fn name_clash(
    src: Source,
    t: Dialect,
    s: &[u8],
    starts: &[usize],
    ends: &[usize],
    header: bool,
) -> Result<(), Fault>
    requires { NamesIn src s.now starts.now ends.now }
    ensures { (kinds : List ℕ) → length kinds ≡ length starts.now
        → result ≡ clash_fault t header (cells_in src s.now starts.now ends.now kinds) }
{
    if !header {
        return Ok(());
    }
    match record_check::names::first_repeat(src, t, s, starts, ends) {
        None => Ok(()),
        Some(column) => Err(Fault::Clash { column }),
    }
}

// ---- lengths

// The length with the record's ending of a text of length `end`.
fn with_ending(t: Dialect, end: usize) -> usize
    requires { end ≤ MAXRECORD }
    ensures { result ≡ end + length (ending t) }
{
    let mut nothing = [0u8; 1];
    record::write_ending(t, &mut nothing, end, false)
}

// The checks of a text's length, measured without its ending, after `written` bytes of output.
fn check_size(t: Dialect, end: usize, written: usize) -> Result<usize, Fault>
    requires { written ≤ MAXFILE }
    ensures { (text : Bytes) → end ≡ measure (length text) → result ≡ result_and (length_fault t written text) (Ok (length (text ++ ending t))) }
{
    if MAX_RECORD < end {
        return Err(Fault::TextTooLong);
    }
    let length = with_ending(t, end);
    if MAX_FILE - written < length {
        return Err(Fault::OutputTooLong);
    }
    Ok(length)
}

// ---- records

// The target's checks of a record whose cells lie in these spans, after `written` bytes of output. `clean`: a data record of a file whose
// cells are verbatim, for which the fast path measures.
pub fn check_target(
    src: Source,
    t: Dialect,
    s: &[u8],
    starts: &[usize],
    ends: &[usize],
    kinds: &[u8],
    header: bool,
    clean: bool,
    written: usize,
) -> Result<usize, Fault>
    requires cells { Cells src s.now starts.now ends.now kinds.now }
    requires clean_record { clean ≡ true → CleanRecord s.now starts.now ends.now src header }
    requires written_bound { written ≤ MAXFILE }
    ensures { result ≡ result_and
        (target_fault (into t) header written (cells_in src s.now starts.now ends.now kinds.now))
        (Ok (length (record_text (into t) header (cells_in src s.now starts.now ends.now kinds.now) ++ ending t))) }
{
    if lacks_cells(t, header, starts.len()) {
        return Err(Fault::NoCells);
    }
    let x = measure(src, t, s, starts, ends, kinds, header, clean);
    x.carries?;
    name_clash(src, t, s, starts, ends, header)?;
    check_size(t, x.end, written)
}

// The checks of a record of a file in dialect d, under a header of `columns` columns: the source's, and then the target's.
// The fast paths for data records call record_check::data and check_target themselves: called from there too, this function is no longer
// inlined, and a conversion of short cells costs 2% to 6% more instructions.
pub fn check_record(
    d: Dialect,
    t: Dialect,
    s: &[u8],
    starts: &[usize],
    ends: &[usize],
    kinds: &[u8],
    header: bool,
    clean: bool,
    columns: usize,
    written: usize,
) -> Result<usize, Fault>
    requires cells { Cells (File d) s.now starts.now ends.now kinds.now }
    requires clean_record { clean ≡ true → CleanRecord s.now starts.now ends.now (File d) header }
    requires written_bound { written ≤ MAXFILE }
    ensures { result ≡ result_and
        (source_fault d header columns (cells_in (File d) s.now starts.now ends.now kinds.now)
        or_else target_fault (into t) header written (cells_in (File d) s.now starts.now ends.now kinds.now))
        (Ok (length (record_text (into t) header (cells_in (File d) s.now starts.now ends.now kinds.now) ++ ending t))) }
{
    let src = Source::File(d);
    record_check::check(src, d, s, starts, ends, kinds, header, columns)?;
    check_target(src, t, s, starts, ends, kinds, header, clean, written)
}
