// The end of a file that came in pieces: between records, in the middle of one, or completing a last one with the current cell. In: the
// place and the buffered cells; out: a report, and the text of a last record. Definition: `Finished` (specs/Calls.antt of piece_step),
// the end of model's reader; proofs/EndLaws.antt has a law for each case.
ghost use Rattle.std.specs.Prelude.{◌≡◌, List, [], ◌≤◌, length};
ghost use Rattle.model.specs.rules.Base.{Bytes};
ghost use Rattle.model.specs.rules.Report.{MAXFILE};
ghost use Rattle.model.specs.declared.Ending.TheVariants.{Final};
ghost use Rattle.model.specs.rules.Dialect.{into};
ghost use Rattle.model.specs.rules.File.{file_end};
ghost use Rattle.model.specs.rules.Records.{Rec};
ghost use Rattle.model.specs.laws.Scans.{Buffered};
ghost use Rattle.piece_step.specs.Steps.{StepReady};
ghost use Rattle.piece_step.specs.Calls.{CallStart, Named, ReadyPiece, Begun, failed_as, Finished};

use codes::MAX_COLUMNS;
use model::{Dialect, Ending, Fault};
use piece_record::RecordError;
use piece_state::place::Place;
use piece_step::CallResult;

// Reports a fault at offset `at` of the file.
fn fault_at(p: Place, e: Fault, at: usize) -> CallResult
    requires { p.records ≤ MAXFILE }
    ensures { result ≡ failed_as p e at }
{
    CallResult {
        place: p,
        report: codes::record_report(e, p.records + 1, at),
        length: 0,
    }
}

// Completes the last record with the current cell. The buffered cells may already be as many as a record may have.
fn last_record(
    d: Dialect,
    t: Dialect,
    p: Place,
    bytes: &[u8],
    ends: &mut [usize],
    out: &mut [u8],
) -> CallResult
    requires step_ready { StepReady [] p.offset 0 p bytes.now ends.old out.old 0 }
    requires state_value { file_end d p.state ≡ Final }
    ensures finished { (done : List Rec) (k : Buffered) → CallStart d (into t) [] p bytes.now ends.old out.old done k → Finished d (into t) p done k out.old out.new result }
    ensures length_in_bounds { result.length ≤ length out.old }
{
    let last = p.cells;
    if MAX_COLUMNS <= last {
        return fault_at(p, Fault::TooManyColumns, p.start);
    }
    ends[last] = p.fill;
    let total = last + 1;
    let mut starts = [0usize; MAX_COLUMNS];
    let mut kinds = [0u8; MAX_COLUMNS];
    match piece_record::complete(
        d,
        t,
        bytes,
        &ends[..total],
        p,
        out,
        0,
        &mut starts,
        &mut kinds,
    ) {
        Ok(end) => CallResult {
            place: p,
            report: codes::call_report(codes::ACCEPTED),
            length: end,
        },
        Err(RecordError::Refused(e)) => fault_at(p, e, p.start),
        Err(RecordError::Invalid) => CallResult {
            place: p,
            report: codes::call_report(codes::WRONG_CALL),
            length: 0,
        },
    }
}

// The end, with the current record in these arrays.
fn end_record(
    d: Dialect,
    t: Dialect,
    p: Place,
    bytes: &[u8],
    ends: &mut [usize],
    out: &mut [u8],
) -> CallResult
    requires { StepReady [] p.offset 0 p bytes.now ends.old out.old 0 }
    ensures finished { (done : List Rec) (k : Buffered) → CallStart d (into t) [] p bytes.now ends.old out.old done k → Finished d (into t) p done k out.old out.new result }
    ensures length_in_bounds { result.length ≤ length out.old }
{
    let f = p.state;
    match record_scanner::limits::file_end(d, f) {
        Ending::Cut => fault_at(p, Fault::CutShort, p.offset),
        Ending::Clean => {
            if p.records == 0 {
                return fault_at(p, Fault::NoRecord, p.offset);
            }
            CallResult {
                place: p,
                report: codes::call_report(codes::ACCEPTED),
                length: 0,
            }
        }
        Ending::Final => last_record(d, t, p, bytes, ends, out),
    }
}

// The end. The header is buffered in `names` and `name_ends`, and once it is complete they are not changed.
pub fn end_file(
    d: Dialect,
    t: Dialect,
    p: Place,
    names: &[u8],
    name_ends: &mut [usize],
    bytes: &[u8],
    ends: &mut [usize],
    out: &mut [u8],
) -> CallResult
    requires { ReadyPiece p names.now name_ends.old bytes.now ends.old }
    ensures finished { (before : Bytes) (done : List Rec) (k : Buffered) → Begun d (into t) before [] p names.now name_ends.old bytes.now ends.old out.old done k → Finished d (into t) p done k out.old out.new result × Named before names.now name_ends.new done }
    ensures length_in_bounds { result.length ≤ length out.old }
{
    if p.records == 0 {
        return end_record(d, t, p, names, name_ends, out);
    }
    end_record(d, t, p, bytes, ends, out)
}
