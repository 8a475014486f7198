// The cursor over the records of a whole file. In: a place between two records, and what was read before it. Out: the place after the next
// record, with the spans and kinds of its cells in lent lists; or the file's end; or the report of a fault. A record is checked for its
// source, and then for its target where the file is converted. A last record that the file's end completes is returned as any other, and
// the next call returns the end. The definition is reading itself, `read_from` and `read_end` of model's specs/rules/Records.antt;
// specs/NextRecord.antt has the contract. Proved again with it: proofs/RecordChecks.antt and NextRecords.antt, and the loops above.
#![tactic(auto)]

ghost use Rattle.std.specs.Prelude.{◌≡◌, true, List, ◌+◌, ◌≤◌, length, take};
ghost use Rattle.model.specs.rules.Text.{Value};
ghost use Rattle.model.specs.rules.Report.{MAXFILE, MAXCOLUMNS};
ghost use Rattle.model.specs.rules.Records.{Rec};
ghost use Rattle.cell_decoder.specs.declared.source.Source.TheVariants.{File};
ghost use Rattle.cell_decoder.specs.Sources.{cells_in, Cells};
ghost use Rattle.record_scanner.specs.Tokens.{outer};
ghost use Rattle.file_cursor.specs.NextRecord.{at_start, After, CheckSound, RecordChecked, FileEnded, NextRecordSound};
ghost use Rattle.record_fast.specs.CellLists.{Long, SameLengths, Shows};

use crate::scan::FileScan;
use cell_decoder::source::Source;
use codes::MAX_COLUMNS;
use model::{Dialect, Fault, FileState, Report};

pub mod fast;
pub mod scan;

// A place between two records of a file, and what was read before it: how many records, how many cells each of them has, and how long
// their text in the target is; 0 where there is no target. The order of the fields is measured: with the state first, a conversion of
// short cells takes 1.5% more instructions.
#[derive(Clone, Copy)]
pub struct Cursor {
    pub done: usize,
    pub columns: usize,
    pub written: usize,
    pub offset: usize,
    pub state: FileState,
}

// Before the first record.
pub fn at_start() -> Cursor
    ensures { result ≡ at_start }
{
    Cursor {
        done: 0,
        columns: 0,
        written: 0,
        offset: 0,
        state: FileState::Top,
    }
}

// ---- a complete record

// The source's checks of the record after the cursor, and then the target's.
fn check_record(
    d: Dialect,
    target: Option<Dialect>,
    file: &[u8],
    starts: &[usize],
    ends: &[usize],
    kinds: &[u8],
    cursor: Cursor,
) -> Result<usize, Fault>
    requires cells { Cells (File d) file.now starts.now ends.now kinds.now }
    requires written_bound { cursor.written ≤ MAXFILE }
    ensures { CheckSound d target cursor (cells_in (File d) file.now starts.now ends.now kinds.now) result }
{
    let header = cursor.done == 0;
    match target {
        None => {
            let src = Source::File(d);
            record_check::check(src, d, file, starts, ends, kinds, header, cursor.columns)?;
            Ok(0)
        }
        Some(t) => record_target::check_record(
            d,
            t,
            file,
            starts,
            ends,
            kinds,
            header,
            false,
            cursor.columns,
            cursor.written,
        ),
    }
}

// A complete record: its number of cells, which are in the lists if they are no more than a record may have, its start, and the state and
// the offset after it.
fn finish_record(
    d: Dialect,
    target: Option<Dialect>,
    file: &[u8],
    starts: &[usize],
    ends: &[usize],
    kinds: &[u8],
    cursor: Cursor,
    start: usize,
    cells: usize,
    state: FileState,
    next: usize,
) -> Result<Option<Cursor>, Report>
    requires long { Long starts.now ends.now kinds.now }
    requires cells { cells ≤ MAXCOLUMNS → Cells (File d) file.now (take cells starts.now) (take cells ends.now) (take cells kinds.now) }
    requires done_bound { (cursor.done ≤ MAXFILE) × (cursor.written ≤ MAXFILE) }
    ensures { (rs : List Rec) (vs : List Value) → After target cursor rs → Shows d file.now vs cells starts.now ends.now kinds.now → RecordChecked d target rs vs start state next result }
{
    if MAX_COLUMNS < cells {
        return Err(codes::record_report(Fault::TooManyColumns, cursor.done + 1, start));
    }
    match check_record(
        d,
        target,
        file,
        &starts[..cells],
        &ends[..cells],
        &kinds[..cells],
        cursor,
    ) {
        Ok(length) => Ok(Some(Cursor {
            done: cursor.done + 1,
            columns: cells,
            written: cursor.written + length,
            offset: next,
            state,
        })),
        Err(e) => Err(codes::record_report(e, cursor.done + 1, start)),
    }
}

// The file ends here, between records.
fn finish_file(done: usize, offset: usize) -> Result<Option<Cursor>, Report>
    ensures { (rs : List Rec) → length rs ≡ done → FileEnded rs offset result }
{
    if done == 0 {
        return Err(codes::record_report(Fault::NoRecord, 1, offset));
    }
    Ok(None)
}

// The next record.
pub fn next_record(
    d: Dialect,
    target: Option<Dialect>,
    file: &[u8],
    cursor: Cursor,
    starts: &mut [usize],
    ends: &mut [usize],
    kinds: &mut [u8],
) -> Result<Option<Cursor>, Report>
    requires offset_in_bounds { (cursor.offset ≤ length file.now) × (cursor.offset ≤ MAXFILE) × (outer cursor.state ≡ true) }
    requires done_le_offset { (cursor.done ≤ cursor.offset) × (cursor.written ≤ MAXFILE) }
    requires long { Long starts.old ends.old kinds.old }
    ensures next_record_sound { (rs : List Rec) → After target cursor rs → NextRecordSound d target file.now rs cursor.state cursor.offset starts.new ends.new kinds.new result }
    ensures same_lengths { SameLengths starts.old ends.old kinds.old starts.new ends.new kinds.new }
{
    let state = cursor.state;
    match crate::scan::scan_next(
        d,
        file,
        cursor.offset,
        state,
        MAX_COLUMNS,
        0,
        starts,
        ends,
        kinds,
    ) {
        FileScan::Completed {
            start,
            cells,
            state: f,
            next,
        } => finish_record(
            d, target, file, starts, ends, kinds, cursor, start, cells, f, next,
        ),
        FileScan::LastRecord { start, cells } => finish_record(
            d,
            target,
            file,
            starts,
            ends,
            kinds,
            cursor,
            start,
            cells,
            FileState::Begin,
            file.len(),
        ),
        FileScan::Failed { fault, offset } => Err(codes::record_report(
            fault,
            cursor.done + 1,
            offset,
        )),
        FileScan::End { offset } => finish_file(cursor.done, offset),
    }
}
