// The fast path of the cursor, over data records, by whole cells: it returns what `next_record` returns, or falls back to it. The contract
// is `FastNextSound` of specs/FastNext.antt. The loops of a conversion call it before the cursor: inside the cursor, both would have to
// share registers.
ghost use Rattle.std.specs.Prelude.{◌≡◌, true, List, ℕ, ◌≤◌, length, take};
ghost use Rattle.model.specs.rules.Text.{Value};
ghost use Rattle.model.specs.rules.Report.{MAXFILE, MAXCOLUMNS};
ghost use Rattle.model.specs.rules.Records.{Rec};
ghost use Rattle.cell_fast.specs.Ends.{CleanIn};
ghost use Rattle.cell_decoder.specs.declared.source.Source.TheVariants.{File};
ghost use Rattle.cell_decoder.specs.Sources.{cells_in, Cells};
ghost use Rattle.record_scanner.specs.Tokens.{outer};
ghost use Rattle.file_cursor.specs.NextRecord.{cursor_of, After, CheckSound};
ghost use Rattle.record_fast.specs.CellLists.{Long, SameLengths, Shows};
ghost use Rattle.file_cursor.specs.FastNext.{FastCheckSound, FastNextSound};

use crate::Cursor;
use cell_decoder::source::Source;
use codes::{MAX_COLUMNS, MAX_FILE};
use model::{Dialect, Fault, FileState};
use record_fast::FastRecord;

// The place after the record; and whether each of its cells is a text whose content is in it verbatim.
#[derive(Clone, Copy)]
pub struct FastNext {
    pub cursor: Cursor,
    pub clean: bool,
}

// The source's checks of a data record after the cursor, and then the target's.
fn check_record(
    d: Dialect,
    target: Option<Dialect>,
    file: &[u8],
    starts: &[usize],
    ends: &[usize],
    kinds: &[u8],
    cursor: Cursor,
    clean: bool,
) -> Result<usize, Fault>
    requires cells { Cells (File d) file.now starts.now ends.now kinds.now }
    requires clean_in { clean ≡ true → CleanIn d file.now starts.now ends.now }
    requires fact { (cursor.done ≡ 0 → ⊥) × (cursor.written ≤ MAXFILE) }
    ensures { CheckSound d target cursor (cells_in (File d) file.now starts.now ends.now kinds.now) result }
{
    record_check::data(cursor.columns, starts.len())?;
    match target {
        None => Ok(0),
        Some(t) => record_target::check_target(
            Source::File(d),
            t,
            file,
            starts,
            ends,
            kinds,
            false,
            clean,
            cursor.written,
        ),
    }
}

// A complete data record: its number of cells, which are in the lists if they are no more than a record may have, and the state and the
// offset after it.
fn finish_record(
    d: Dialect,
    target: Option<Dialect>,
    file: &[u8],
    starts: &[usize],
    ends: &[usize],
    kinds: &[u8],
    cursor: Cursor,
    cells: usize,
    state: FileState,
    next: usize,
    clean: bool,
) -> Option<FastNext>
    requires long { Long starts.now ends.now kinds.now }
    requires cells { cells ≤ MAXCOLUMNS → Cells (File d) file.now (take cells starts.now) (take cells ends.now) (take cells kinds.now) }
    requires clean_in { cells ≤ MAXCOLUMNS → clean ≡ true → CleanIn d file.now (take cells starts.now) (take cells ends.now) }
    requires fact { (cursor.done ≡ 0 → ⊥) × (cursor.done ≤ MAXFILE) × (cursor.written ≤ MAXFILE) }
    ensures { (rs : List Rec) (vs : List Value) (start : ℕ) → After target cursor rs → Shows d file.now vs cells starts.now ends.now kinds.now → FastCheckSound d target rs vs start state next clean result }
{
    if MAX_COLUMNS < cells {
        return None;
    }
    let length = check_record(
        d,
        target,
        file,
        &starts[..cells],
        &ends[..cells],
        &kinds[..cells],
        cursor,
        clean,
    )
    .ok()?;
    Some(FastNext {
        cursor: Cursor {
            done: cursor.done + 1,
            columns: cells,
            written: cursor.written + length,
            offset: next,
            state,
        },
        clean,
    })
}

// The next record from a cursor with these fields. They are parameters of their own, since the cursor by value would be copied before the
// scan: 2.3% more instructions where CSV+ has short cells.
pub fn next_data_record(
    d: Dialect,
    target: Option<Dialect>,
    file: &[u8],
    from: usize,
    state: FileState,
    done: usize,
    columns: usize,
    written: usize,
    starts: &mut [usize],
    ends: &mut [usize],
    kinds: &mut [u8],
) -> Option<FastNext>
    requires from_in_bounds { (from ≤ length file.now) × (from ≤ MAXFILE) × (outer state ≡ true) }
    requires done_le_from { (done ≤ from) × (written ≤ MAXFILE) }
    requires long { Long starts.old ends.old kinds.old }
    ensures fast_next_sound { (rs : List Rec) → After target (cursor_of done columns written from state) rs → FastNextSound d target file.now rs state from starts.new ends.new kinds.new result }
    ensures same_lengths { SameLengths starts.old ends.old kinds.old starts.new ends.new kinds.new }
{
    if done == 0 {
        return None;
    }
    let FastRecord {
        start: _,
        cells,
        state: f,
        next,
        clean,
    } = record_fast::scan(
        d,
        file,
        from,
        state,
        MAX_FILE,
        MAX_COLUMNS,
        0,
        starts,
        ends,
        kinds,
    )?;
    let cursor = Cursor {
        done,
        columns,
        written,
        offset: from,
        state,
    };
    finish_record(
        d, target, file, starts, ends, kinds, cursor, cells, f, next, clean,
    )
}
