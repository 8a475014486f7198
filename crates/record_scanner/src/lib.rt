// The scanner: a part of a file and a state go in; the end of the current record comes out, or a fault of form or of limits, or that the
// part ended, with the cells stored in lent lists as far as there is room. A complete record is returned before it is checked. The
// definition is `scan` of model's specs/laws/Scans.antt; the invariant of the loop is in proofs/ScanInvariant.antt, one law for each path
// through a step.
//
// The loop holds numbers and an offset; `token` finds the next token, mostly a whole cell. Each function on this path has one call site,
// or its result would go through memory, at half the speed. For the same reason the code after a step is there twice: a shared copy costs
// an eighth more instructions.
#![tactic(auto)]

ghost use Rattle.std.specs.Prelude.{◌≡◌, ◌≤◌, length, drop};
ghost use Rattle.model.specs.rules.Report.{MAXFILE, MAXRECORD};
ghost use Rattle.model.specs.laws.Scans.{fresh};
ghost use Rattle.record_scanner.specs.Parts.{found_in, raw_starts, raw_ends, raw_kinds, ScanInBounds};
ghost use Rattle.record_scanner.specs.Stored.{stored_from};

use crate::record_state::RecordState;
use crate::token::{ScanOutcome, Token};
use model::{ByteRole, Dialect, Fault, FileState};

pub mod limits;
pub mod record_state;
pub mod store;
pub mod token;

// Scans a part of a file from `from` on, up to the end of the current record, a fault or the part's end. `first` is the file's state at
// `from`, and `size` the number of bytes of the current record counted before. Bytes of the part from `limit` on are too many for the
// file. All offsets are those of the part, also for a cell that began before it. Cells are stored in the lists from index `base` on, up
// to `room`.
pub fn scan(
    d: Dialect,
    part: &[u8],
    from: usize,
    first: FileState,
    size: usize,
    limit: usize,
    room: usize,
    base: usize,
    starts: &mut [usize],
    ends: &mut [usize],
    kinds: &mut [u8],
) -> ScanOutcome
    requires from_in_bounds { (from ≤ length part.now) × (from ≤ limit) × (base ≤ from) }
    requires size_bound { (size ≤ MAXRECORD) × (limit ≤ MAXFILE) }
    requires room_in_bounds { (room ≤ length starts.old) × (room ≤ length ends.old) × (room ≤ length kinds.old) }
    ensures value { result ≡ (found_in d limit (fresh first size from) (drop from part.now)).answer }
    ensures starts_after { starts.new ≡ stored_from room base (raw_starts (found_in d limit (fresh first size from) (drop from part.now)).cells) starts.old }
    ensures ends_after { ends.new ≡ stored_from room base (raw_ends (found_in d limit (fresh first size from) (drop from part.now)).cells) ends.old }
    ensures kinds_after { kinds.new ≡ stored_from room base (raw_kinds d (found_in d limit (fresh first size from) (drop from part.now)).cells) kinds.old }
    ensures scan_in_bounds { ScanInBounds (length part.now) from limit base result }
{
    let mut state = first;
    let mut i = from;
    let mut h = RecordState {
        start: from,
        size,
        opened: from,
        cells: 0,
    };
    // i moves by whole tokens.
    while i < part.len() {
        if limit <= i {
            return ScanOutcome::Failed {
                fault: Fault::FileTooLong,
                offset: i,
            };
        }
        if limits::is_full(state, h.size, part[i]) {
            return ScanOutcome::Failed {
                fault: Fault::RecordTooLong,
                offset: i,
            };
        }
        match crate::token::next_token(d, part, state, i, h.size, limit) {
            // A match of its own: of f and p in a nested pattern the proof has terms that do not agree with its own names for them.
            Token::Is(s) => match s {
                Err(e) => {
                    return ScanOutcome::Failed {
                        fault: Fault::Byte(e),
                        offset: i,
                    };
                }
                Ok((f, p)) => {
                    store::store_cell(
                        record_state::closes_cell(p),
                        d,
                        part,
                        h.opened,
                        i,
                        room,
                        base + h.cells,
                        starts,
                        ends,
                        kinds,
                    );
                    h = h.after_byte(p, i);
                    i += 1;
                    if record_state::ends_record(p) {
                        return ScanOutcome::Completed {
                            start: h.start,
                            cells: h.cells,
                            state: f,
                            next: i,
                        };
                    }
                    state = f;
                    continue;
                }
            },
            Token::Skipped(j) => {
                h = h.after_byte(ByteRole::Outside, j - 1);
                i = j;
                continue;
            }
            Token::AfterCell { closes, at: j } => {
                h = h.after_bytes(j - i);
                i = j;
                match file_lexer::separators::after_cell(d, closes, part[j]) {
                    Err(e) => {
                        return ScanOutcome::Failed {
                            fault: Fault::Byte(e),
                            offset: i,
                        };
                    }
                    Ok((f, p)) => {
                        store::store_cell(
                            record_state::closes_cell(p),
                            d,
                            part,
                            h.opened,
                            i,
                            room,
                            base + h.cells,
                            starts,
                            ends,
                            kinds,
                        );
                        h = h.after_byte(p, i);
                        i += 1;
                        if record_state::ends_record(p) {
                            return ScanOutcome::Completed {
                                start: h.start,
                                cells: h.cells,
                                state: f,
                                next: i,
                            };
                        }
                        state = f;
                        continue;
                    }
                }
            }
            Token::Refused(e, j) => {
                return ScanOutcome::Failed {
                    fault: Fault::Byte(e),
                    offset: j,
                };
            }
            Token::Open(c, j) => {
                h = h.after_bytes(j - i);
                state = FileState::Inside(c);
                i = j;
                continue;
            }
        }
    }
    ScanOutcome::NeedInput { state, hand: h }
}
