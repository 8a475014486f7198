// One pass over the data records of a file, each checked when it is complete: by the fast scan, or else by the scanner from the record's
// start. In: the place after the header, its columns, and lists with room for some cells. Out: the records and cells up to the file's end,
// or a report. The contract is `PassSound` of specs/Passes.antt; its invariant is in proofs/PassInvariant.antt.
ghost use Rattle.std.specs.Prelude.{◌≡◌, [], ◌≤◌, length, drop};
ghost use Rattle.model.specs.rules.Report.{MAXFILE};
ghost use Rattle.model.specs.rules.Records.{between_records};
ghost use Rattle.model.specs.rules.Api.{starts_of, ends_of, kinds_of};
ghost use Rattle.record_scanner.specs.Stored.{stored_from};
ghost use Rattle.file_cursor.specs.Next.{next_record, EventInBounds};
ghost use Rattle.file_reader.specs.Passes.{PassSound, data_scan};

use codes::MAX_FILE;
use file_cursor::scan::FileScan;
use model::{Dialect, Fault, FileState, Report};
use record_fast::FastRecord;

// The numbers of records and cells up to the file's end.
#[derive(Clone, Copy)]
pub struct Counts {
    pub records: usize,
    pub cells: usize,
}

// The next data record, or what comes in its place.
#[derive(Clone, Copy)]
pub enum DataScan {
    // Its start, its number of cells, the state and the offset after it, and whether the file's end completed it.
    Record {
        start: usize,
        cells: usize,
        state: FileState,
        next: usize,
        last: bool,
    },
    // A fault at this offset.
    Failed {
        fault: Fault,
        offset: usize,
    },
    // The file ended between records.
    End,
}

// The next data record from `from` on: by the fast scan, or else by the scanner. The loop below then has one arm for a record, however it
// was found; reading takes up to 4% fewer instructions than with an arm for each.
fn next_data(
    d: Dialect,
    file: &[u8],
    from: usize,
    first: FileState,
    room: usize,
    base: usize,
    starts: &mut [usize],
    ends: &mut [usize],
    kinds: &mut [u8],
) -> DataScan
    requires from_in_bounds { (from ≤ length file.now) × (from ≤ MAXFILE) × (base ≤ from) }
    requires room_in_bounds { (room ≤ length starts.old) × (room ≤ length ends.old) × (room ≤ length kinds.old) }
    ensures value { result ≡ data_scan (length file.now) (next_record d (between_records [] first from) (drop from file.now)).event }
    ensures starts_after { starts.new ≡ stored_from room base (starts_of (next_record d (between_records [] first from) (drop from file.now)).cells) starts.old }
    ensures ends_after { ends.new ≡ stored_from room base (ends_of (next_record d (between_records [] first from) (drop from file.now)).cells) ends.old }
    ensures kinds_after { kinds.new ≡ stored_from room base (kinds_of (next_record d (between_records [] first from) (drop from file.now)).cells) kinds.old }
    ensures event_in_bounds { EventInBounds (length file.now) from base (next_record d (between_records [] first from) (drop from file.now)).event }
{
    match record_fast::scan(
        d, file, from, first, MAX_FILE, room, base, starts, ends, kinds,
    ) {
        Some(
            FastRecord {
                start,
                cells,
                state,
                next,
                clean: _,
            },
        ) => DataScan::Record {
            start,
            cells,
            state,
            next,
            last: false,
        },
        None => match file_cursor::scan::scan_next(
            d, file, from, first, room, base, starts, ends, kinds,
        ) {
            FileScan::Completed {
                start,
                cells,
                state,
                next,
            } => DataScan::Record {
                start,
                cells,
                state,
                next,
                last: false,
            },
            FileScan::LastRecord { start, cells } => DataScan::Record {
                start,
                cells,
                state: FileState::Begin,
                next: file.len(),
                last: true,
            },
            FileScan::Failed { fault, offset } => DataScan::Failed { fault, offset },
            FileScan::End { offset: _ } => DataScan::End,
        },
    }
}

// The data records from `from` on, under a header of this number of columns.
pub fn data_records(
    d: Dialect,
    file: &[u8],
    from: usize,
    first: FileState,
    columns: usize,
    room: usize,
    starts: &mut [usize],
    ends: &mut [usize],
    kinds: &mut [u8],
) -> Result<Counts, Report>
    requires from_in_bounds { (from ≤ length file.now) × (from ≤ MAXFILE) }
    requires room_in_bounds { (room ≤ length starts.old) × (room ≤ length ends.old) × (room ≤ length kinds.old) }
    ensures { PassSound d file.now from first columns room starts.old ends.old kinds.old result starts.new ends.new kinds.new }
{
    let mut state = first;
    let mut i = from;
    let mut cells: usize = 0;
    let mut records: usize = 0;
    loop {
        match next_data(d, file, i, state, room, cells, starts, ends, kinds) {
            DataScan::Record {
                start,
                cells: n,
                state: f,
                next,
                last,
            } => match record_check::data(columns, n) {
                Ok(()) => {
                    cells += n;
                    records += 1;
                    if last {
                        return Ok(Counts { records, cells });
                    }
                    state = f;
                    i = next;
                }
                Err(e) => {
                    return Err(codes::record_report(e, records + 2, start));
                }
            },
            DataScan::Failed { fault, offset } => {
                return Err(codes::record_report(fault, records + 2, offset));
            }
            DataScan::End => {
                return Ok(Counts { records, cells });
            }
        }
    }
}
