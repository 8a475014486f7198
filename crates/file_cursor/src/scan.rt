// The next record of a whole file, by form and limits: the scanner up to the record's end, and then the file's end. A complete record is
// returned before it is checked. The definition is `next_record` of specs/Next.antt; proofs/RecordByRecord.antt has the law that reading a
// file is a sequence of next records, and proofs/WholeFile.antt what is proved again with this file.
ghost use Rattle.std.specs.Prelude.{◌≡◌, [], ◌+◌, ◌≤◌, length, drop};
ghost use Rattle.model.specs.rules.Report.{MAXFILE};
ghost use Rattle.model.specs.rules.Decode.{kind_number, kind_of};
ghost use Rattle.model.specs.rules.File.{file_end};
ghost use Rattle.model.specs.rules.Records.{between_records};
ghost use Rattle.model.specs.rules.Api.{slice, starts_of, ends_of, kinds_of};
ghost use Rattle.record_scanner.specs.Stored.{store_if, stored_from};
ghost use Rattle.file_cursor.specs.Next.{next_record, EventInBounds};
ghost use Rattle.file_cursor.specs.Ends.{is_final, end_event};

use model::{Dialect, Ending, Fault, FileState};
use record_scanner::record_state::RecordState;
use record_scanner::token::ScanOutcome;
use record_scanner::{limits, store};

// The next event of reading. Four ways: a last record leaves no place to read on from, and an end is no fault.
#[derive(Clone, Copy)]
pub enum FileScan {
    // A record is complete: its start, its number of cells, and the state and the offset after it.
    Completed {
        start: usize,
        cells: usize,
        state: FileState,
        next: usize,
    },
    // The same for a last record that the file's end completes.
    LastRecord {
        start: usize,
        cells: usize,
    },
    // A fault at this offset.
    Failed {
        fault: Fault,
        offset: usize,
    },
    // The file ended between records.
    End {
        offset: usize,
    },
}

// The end of the file, in this state and this record.
fn at_end(
    d: Dialect,
    file: &[u8],
    state: FileState,
    h: RecordState,
    room: usize,
    base: usize,
    starts: &mut [usize],
    ends: &mut [usize],
    kinds: &mut [u8],
) -> FileScan
    requires file_len_bound { (length file.now ≤ MAXFILE) × (h.opened ≤ length file.now) × (base + h.cells ≤ length file.now) }
    requires room_in_bounds { (room ≤ length starts.old) × (room ≤ length ends.old) × (room ≤ length kinds.old) }
    ensures value { result ≡ end_event (file_end d state) h (length file.now) }
    ensures starts_after { starts.new ≡ store_if (is_final (file_end d state)) room (base + h.cells) h.opened starts.old }
    ensures ends_after { ends.new ≡ store_if (is_final (file_end d state)) room (base + h.cells) (length file.now) ends.old }
    ensures kinds_after { kinds.new ≡ store_if (is_final (file_end d state)) room (base + h.cells) (kind_number (kind_of d (slice file.now h.opened (length file.now)))) kinds.old }
{
    let i = file.len();
    match limits::file_end(d, state) {
        Ending::Clean => FileScan::End { offset: i },
        Ending::Final => {
            store::store_cell(
                true,
                d,
                file,
                h.opened,
                i,
                room,
                base + h.cells,
                starts,
                ends,
                kinds,
            );
            FileScan::LastRecord {
                start: h.start,
                cells: h.cells + 1,
            }
        }
        Ending::Cut => FileScan::Failed {
            fault: Fault::CutShort,
            offset: i,
        },
    }
}

// The next record from `from` on. Its cells are stored in the lists from place `base` on, up to `room`.
pub fn scan_next(
    d: Dialect,
    file: &[u8],
    from: usize,
    first: FileState,
    room: usize,
    base: usize,
    starts: &mut [usize],
    ends: &mut [usize],
    kinds: &mut [u8],
) -> FileScan
    requires from_in_bounds { (from ≤ length file.now) × (from ≤ MAXFILE) × (base ≤ from) }
    requires room_in_bounds { (room ≤ length starts.old) × (room ≤ length ends.old) × (room ≤ length kinds.old) }
    ensures value { result ≡ (next_record d (between_records [] first from) (drop from file.now)).event }
    ensures starts_after { starts.new ≡ stored_from room base (starts_of (next_record d (between_records [] first from) (drop from file.now)).cells) starts.old }
    ensures ends_after { ends.new ≡ stored_from room base (ends_of (next_record d (between_records [] first from) (drop from file.now)).cells) ends.old }
    ensures kinds_after { kinds.new ≡ stored_from room base (kinds_of (next_record d (between_records [] first from) (drop from file.now)).cells) kinds.old }
    ensures event_in_bounds { EventInBounds (length file.now) from base result }
{
    match record_scanner::scan(
        d,
        file,
        from,
        first,
        0,
        codes::MAX_FILE,
        room,
        base,
        starts,
        ends,
        kinds,
    ) {
        ScanOutcome::Completed {
            start,
            cells,
            state,
            next,
        } => FileScan::Completed {
            start,
            cells,
            state,
            next,
        },
        ScanOutcome::Failed { fault, offset } => FileScan::Failed { fault, offset },
        ScanOutcome::NeedInput { state, hand } => {
            at_end(d, file, state, hand, room, base, starts, ends, kinds)
        }
    }
}
