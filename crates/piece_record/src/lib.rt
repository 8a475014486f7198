// A complete record. In: the buffered bytes of its cells with their ends, and the place of the record in its file. Out: its text in the
// buffer, if it has no fault and there is room, or the fault. specs/Completion.antt is the definition.
//
// A state that calls made has only cells that can be written and room for them (piece_step, piece_run). A state from elsewhere may hold any
// bytes: they are checked for what writing requires (cell_decoder's specs/Followed.antt), so that the call stays in bounds, and a record
// that fails this check is dropped.
#![tactic(auto)]

ghost use Rattle.std.specs.Prelude.{◌≡◌, true, false, ◌≤◌, length, take};
ghost use Rattle.model.specs.rules.Dialect.{into};
ghost use Rattle.model.specs.rules.Report.{MAXFILE, MAXRECORD, MAXCOLUMNS};
ghost use Rattle.cell_decoder.specs.declared.source.Source.TheVariants.{File};
ghost use Rattle.cell_decoder.specs.Followed.{EdFollowed};
ghost use Rattle.cell_decoder.specs.Sources.{cells_in, Cells};
ghost use Rattle.piece_state.specs.Sound.{InOrder};
ghost use Rattle.piece_record.specs.Completion.{fault_at, text_at, starts_by, end_of, HoldsNoEd, FinishSound, CompleteSound};

use cell_decoder::source::Source;
use model::{Dialect, Fault};
use piece_state::cells;
use piece_state::place::Place;

// Why a complete record is not written.
#[derive(Clone, Copy)]
pub enum RecordError {
    Refused(Fault),
    // Its cells can't be written, or its text has no room: no calls made this state.
    Invalid,
}

// A record whose cells can be written: checked, then written if there is room. Returns where its text ends.
fn finish(
    d: Dialect,
    t: Dialect,
    s: &[u8],
    starts: &[usize],
    ends: &[usize],
    kinds: &[u8],
    p: Place,
    out: &mut [u8],
    o: usize,
) -> Result<usize, RecordError>
    requires cells { Cells (File d) s.now starts.now ends.now kinds.now }
    requires written_bound { (p.written ≤ MAXFILE) × (o ≤ length out.old) }
    ensures { FinishSound (fault_at d (into t) p (cells_in (File d) s.now starts.now ends.now kinds.now)) (text_at (into t) p (cells_in (File d) s.now starts.now ends.now kinds.now)) o out.old out.new result }
{
    let header = p.records == 0;
    let clean = record_writer::clean::is_clean_record(d, s, starts, ends, header);
    // A match and not `map_err`: a proof can't read the clause of a constructor that is passed as a function.
    let length = match record_target::check_record(
        d, t, s, starts, ends, kinds, header, clean, p.columns, p.written,
    ) {
        Ok(length) => length,
        Err(e) => return Err(RecordError::Refused(e)),
    };
    if out.len() - o < length {
        return Err(RecordError::Invalid);
    }
    Ok(record_writer::line::write_line(
        Source::File(d),
        t,
        s,
        starts,
        ends,
        kinds,
        header,
        clean,
        out,
        o,
    ))
}

// ---- bytes that no calls buffered

// Whether one of these bytes is ED hex. All are tested, with no early return: so the loop is widened to sixteen bytes at once, and a record
// without ED, as nearly all are, costs next to nothing.
fn holds_ed(s: &[u8]) -> bool
    ensures { result ≡ false → HoldsNoEd s.now }
{
    let mut found = false;
    for &b in s {
        if b == 0xED {
            found = true;
        }
    }
    found
}

// Whether a byte from 80 to 9F hex follows each ED.
fn is_ed_followed(s: &[u8]) -> bool
    ensures ed_followed { result ≡ true → EdFollowed s.now }
    ensures value { EdFollowed s.now → result ≡ true }
{
    for i in 1..s.len() {
        if s[i - 1] == 0xED && !matches!(s[i], 0x80..=0x9F) {
            return false;
        }
    }
    true
}

// Where the last cell ends.
fn last_end(ends: &[usize]) -> usize
    ensures { result ≡ end_of 0 ends.now }
{
    match ends {
        [.., end] => *end,
        [] => 0,
    }
}

// Whether the cells of a record can be written.
fn may_be_written(bytes: &[u8], ends: &[usize]) -> bool
    requires { InOrder 0 ends.now (length bytes.now) }
    ensures ed_followed { result ≡ true → EdFollowed (take (end_of 0 ends.now) bytes.now) }
    ensures value { EdFollowed (take (end_of 0 ends.now) bytes.now) → result ≡ true }
{
    let to = last_end(ends);
    !holds_ed(&bytes[..to]) || is_ed_followed(&bytes[..to])
}

// A record whose cells lie in the buffered bytes, with their starts.
fn complete_spans(
    d: Dialect,
    t: Dialect,
    bytes: &[u8],
    starts: &[usize],
    ends: &[usize],
    p: Place,
    out: &mut [u8],
    o: usize,
    kinds: &mut [u8],
) -> Result<usize, RecordError>
    requires starts_value { starts.now ≡ starts_by 0 ends.now }
    requires in_order { InOrder 0 ends.now (length bytes.now) }
    requires ends_len_bound { (length ends.now ≤ MAXCOLUMNS) × (length bytes.now ≤ MAXRECORD) × (p.written ≤ MAXFILE) × (o ≤ length out.old) }
    requires kinds_len { length kinds.old ≡ MAXCOLUMNS }
    ensures { CompleteSound d (into t) p bytes.now ends.now o out.old out.new result }
{
    if !may_be_written(bytes, ends) {
        return Err(RecordError::Invalid);
    }
    let n = ends.len();
    cells::kinds_of(d, bytes, starts, ends, n, kinds);
    finish(d, t, bytes, starts, ends, &kinds[..n], p, out, o)
}

// A record whose cells lie in the buffered bytes one after the other, with these ends.
pub fn complete(
    d: Dialect,
    t: Dialect,
    bytes: &[u8],
    ends: &[usize],
    p: Place,
    out: &mut [u8],
    o: usize,
    starts: &mut [usize],
    kinds: &mut [u8],
) -> Result<usize, RecordError>
    requires in_order { InOrder 0 ends.now (length bytes.now) }
    requires ends_len_bound { (length ends.now ≤ MAXCOLUMNS) × (length bytes.now ≤ MAXRECORD) × (p.written ≤ MAXFILE) × (o ≤ length out.old) }
    requires starts_len { (length starts.old ≡ MAXCOLUMNS) × (length kinds.old ≡ MAXCOLUMNS) }
    ensures { CompleteSound d (into t) p bytes.now ends.now o out.old out.new result }
{
    let n = ends.len();
    cells::starts_of(ends, n, starts);
    complete_spans(d, t, bytes, &starts[..n], ends, p, out, o, kinds)
}
