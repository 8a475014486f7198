// The whole-file reader. In: a dialect's number and a file, with lists to fill. Out: the file's columns, data records and cells, and in the
// lists each cell's start, end and kind; or a refusal that leaves the lists as they were. After the header there are two passes over the
// data records: the first checks and counts them, the second fills the lists, so that nothing is stored before the whole file is known to
// be accepted and to have room. The definition is `read_call` of model's specs/rules/Api.antt; proofs/ReaderAnswers.antt is proved again
// with this file.
#![tactic(auto)]

ghost use Rattle.std.specs.Prelude.{◌≡◌, ◌≤◌, length, min};
ghost use Rattle.model.specs.rules.Base.{over};
ghost use Rattle.model.specs.rules.Api.{no_answer, starts_of, ends_of, kinds_of, read_call};
ghost use Rattle.file_reader.specs.Answers.{call_answer, reader_answer, answer_in};
ghost use Rattle.file_reader.specs.Headers.{HeaderRead};

use crate::pass::Counts;
use codes::MAX_COLUMNS;
use model::{Dialect, FileState, Report};

pub mod pass;

// The reader's answer: on refusal all is 0 but the report. It is laid out for C, so that the C boundary returns it as it is.
#[repr(C)]
#[derive(Clone, Copy)]
pub struct Answer {
    pub report: Report,
    pub columns: usize,
    pub records: usize,
    pub cells: usize,
}

fn refused(e: Report) -> Answer
    ensures { result ≡ reader_answer (no_answer e) }
{
    Answer {
        report: e,
        columns: 0,
        records: 0,
        cells: 0,
    }
}

// The rest of a file whose header has this number of columns, from the state and the offset after it.
fn read_records(
    d: Dialect,
    file: &[u8],
    columns: usize,
    state: FileState,
    next: usize,
    room: usize,
    starts: &mut [usize],
    ends: &mut [usize],
    kinds: &mut [u8],
) -> Answer
    requires header_read { HeaderRead d file.now columns state next }
    requires room_in_bounds { (room ≤ length starts.old) × (room ≤ length ends.old) × (room ≤ length kinds.old) }
    ensures value { result ≡ reader_answer (answer_in d file.now room) }
    ensures starts_after { starts.new ≡ over (starts_of (answer_in d file.now room).cells) starts.old }
    ensures ends_after { ends.new ≡ over (ends_of (answer_in d file.now room).cells) ends.old }
    ensures kinds_after { kinds.new ≡ over (kinds_of (answer_in d file.now room).cells) kinds.old }
{
    match crate::pass::data_records(d, file, next, state, columns, 0, starts, ends, kinds) {
        Err(e) => refused(e),
        Ok(Counts { records, cells }) => {
            if room < columns + cells {
                return refused(codes::call_report(codes::NO_ROOM));
            }
            file_cursor::scan::scan_next(d, file, 0, FileState::Top, room, 0, starts, ends, kinds);
            let _ = crate::pass::data_records(
                d,
                file,
                next,
                state,
                columns,
                room - columns,
                &mut starts[columns..],
                &mut ends[columns..],
                &mut kinds[columns..],
            );
            Answer {
                report: codes::call_report(codes::ACCEPTED),
                columns,
                records,
                cells: columns + cells,
            }
        }
    }
}

// A file of this dialect.
pub fn read_in(
    d: Dialect,
    file: &[u8],
    starts: &mut [usize],
    ends: &mut [usize],
    kinds: &mut [u8],
) -> Answer
    ensures value { result ≡ reader_answer (answer_in d file.now (min (length starts.old) (min (length ends.old) (length kinds.old)))) }
    ensures starts_after { starts.new ≡ over (starts_of (answer_in d file.now (min (length starts.old) (min (length ends.old) (length kinds.old)))).cells) starts.old }
    ensures ends_after { ends.new ≡ over (ends_of (answer_in d file.now (min (length starts.old) (min (length ends.old) (length kinds.old)))).cells) ends.old }
    ensures kinds_after { kinds.new ≡ over (kinds_of (answer_in d file.now (min (length starts.old) (min (length ends.old) (length kinds.old)))).cells) kinds.old }
{
    let room = starts.len().min(ends.len().min(kinds.len()));
    // Three lists, since the scanner fills those that C lends side by side.
    let mut header_starts = [0usize; MAX_COLUMNS];
    let mut header_ends = [0usize; MAX_COLUMNS];
    let mut header_kinds = [0u8; MAX_COLUMNS];
    match file_cursor::next_record(
        d,
        None,
        file,
        file_cursor::at_start(),
        &mut header_starts,
        &mut header_ends,
        &mut header_kinds,
    ) {
        Ok(Some(v)) => {
            let state = v.state;
            read_records(
                d, file, v.columns, state, v.offset, room, starts, ends, kinds,
            )
        }
        // A file that ends without a record is a fault.
        Ok(None) => refused(codes::call_report(codes::ACCEPTED)),
        Err(e) => refused(e),
    }
}

// The reader (§10.1): 11 for a number that is no dialect's. It ends on every input, accepts exactly what the rules accept, and its answer
// and its lists are determined for all inputs (§19.1 §19.2 §19.5 §19.6).
pub fn read(
    dialect: u32,
    file: &[u8],
    starts: &mut [usize],
    ends: &mut [usize],
    kinds: &mut [u8],
) -> Answer
    ensures answer { result ≡ call_answer (read_call dialect file.now starts.old ends.old kinds.old) }
    ensures leaves_starts { starts.new ≡ (read_call dialect file.now starts.old ends.old kinds.old).starts }
    ensures leaves_ends { ends.new ≡ (read_call dialect file.now starts.old ends.old kinds.old).ends }
    ensures leaves_kinds { kinds.new ≡ (read_call dialect file.now starts.old ends.old kinds.old).kinds }
{
    match Dialect::try_from(dialect) {
        Ok(d) => read_in(d, file, starts, ends, kinds),
        Err(_) => refused(codes::call_report(codes::WRONG_CALL)),
    }
}
