// The fast path over a data record, by whole cells in place of bytes: an offset between records goes in; the scanner's result comes out,
// or `None`, after which the scanner begins at the same offset. The contract is one-sided (`FastScanSound` of specs/FastScan.antt).
//
// The loop holds numbers alone and finds each cell's end by `cell_fast`: no state of the file is built for a cell, which in the scanner
// takes twice the time. The proof uses the scanner's own laws, one step for each cell (proofs/FastScanInvariant.antt).
#![tactic(auto)]

ghost use Rattle.std.specs.Prelude.{◌≡◌, true, ◌≤◌, ◌<◌, length, get_or, Ok};
ghost use Rattle.model.specs.declared.Dialect.{Dialect};
ghost use Rattle.model.specs.declared.FileState.TheVariants.{Cr, Ended};
ghost use Rattle.model.specs.declared.ByteRole.TheVariants.{Tail};
ghost use Rattle.model.specs.rules.Dialect.{delimiter_of};
ghost use Rattle.model.specs.rules.File.{after_cell};
ghost use Rattle.model.specs.rules.Report.{MAXFILE};
ghost use Rattle.record_fast.specs.FastScan.{FirstCellAt, RecordEndSound, FastScanSound};

use codes::MAX_RECORD;
use model::{Dialect, FileState};
use record_scanner::store;

// A complete record.
#[derive(Clone, Copy)]
pub struct FastRecord {
    // Where it starts.
    pub start: usize,
    // The number of its cells.
    pub cells: usize,
    // The file's state after it.
    pub state: FileState,
    // The next offset.
    pub next: usize,
    // Whether each cell is verbatim: a text whose content is its bytes.
    pub clean: bool,
}

// ---- the start of a record

// The start of a record, after a CR that ended the one before.
fn after_cr(part: &[u8], from: usize) -> Option<usize>
    ensures { FirstCellAt Ended part.now from result }
{
    if *part.get(from)? == b'\n' {
        return Some(from + 1);
    }
    Some(from)
}

// The start of a record's first cell; none in the byte order mark, in comments and after blanks.
fn record_start(first: FileState, part: &[u8], from: usize) -> Option<usize>
    ensures { FirstCellAt first part.now from result }
{
    match first {
        FileState::Begin => Some(from),
        FileState::Ended => after_cr(part, from),
        _ => None,
    }
}

// ---- the end of a record

// The file's state and the offset after CR and LF, if the record ends by these.
fn crlf_end(part: &[u8], e: usize, stop: usize) -> Option<(FileState, usize)>
    requires { (e < stop) × (stop ≤ length part.now) }
    ensures { (d : Dialect) → after_cell d true (get_or part.now e 0) ≡ Ok (Cr, Tail true) → RecordEndSound d part.now e stop result }
{
    if stop - e < 2 || part[e + 1] != b'\n' {
        return None;
    }
    Some((FileState::Begin, e + 2))
}

// The file's state and the offset after the ending that follows the last cell of a record.
fn record_end_at(d: Dialect, part: &[u8], e: usize, stop: usize) -> Option<(FileState, usize)>
    requires { (e < stop) × (stop ≤ length part.now) }
    ensures { RecordEndSound d part.now e stop result }
{
    match part[e] {
        b'\n' => Some((FileState::Begin, e + 1)),
        b'\r' => match d {
            Dialect::Csvj | Dialect::CsvPlus(_) => crlf_end(part, e, stop),
            Dialect::Tdif => Some((FileState::Ended, e + 1)),
        },
        _ => None,
    }
}

// ---- records

// The record from `from` on, an offset between records; `None` means fallback, and its first cells may be in the lists then. Bytes of the
// part from `limit` on are too many for the file. Cells are stored in the lists from index `base` on, up to `room`.
pub fn scan(
    d: Dialect,
    part: &[u8],
    from: usize,
    first: FileState,
    limit: usize,
    room: usize,
    base: usize,
    starts: &mut [usize],
    ends: &mut [usize],
    kinds: &mut [u8],
) -> Option<FastRecord>
    requires from_in_bounds { (from ≤ length part.now) × (from ≤ limit) × (base ≤ from) × (limit ≤ MAXFILE) }
    requires room_in_bounds { (room ≤ length starts.old) × (room ≤ length ends.old) × (room ≤ length kinds.old) }
    ensures { FastScanSound d limit part.now from first room base starts.old ends.old kinds.old starts.new ends.new kinds.new result }
{
    let start = record_start(first, part, from)?;
    let most = part.len().min(limit);
    if most <= start {
        return None;
    }
    let stop = most.min(start + MAX_RECORD);
    let p = cell_lexer::delimiter_of(d);
    let q = cell_lexer::quote_of(d);
    let mut clean = q == b'"';
    let mut at = start;
    let mut n: usize = 0;
    // `at` moves by whole cells. On fallback the cell at `at` must not be in the lists, so each branch stores it.
    while at < stop {
        let found = cell_fast::cell_end(d, p, q, part, at, stop)?;
        let e = found.at;
        clean &= found.clean;
        if part[e] != p {
            let (state, next) = record_end_at(d, part, e, stop)?;
            store::store_cell(true, d, part, at, e, room, base + n, starts, ends, kinds);
            return Some(FastRecord {
                start,
                cells: n + 1,
                state,
                next,
                clean,
            });
        }
        store::store_cell(true, d, part, at, e, room, base + n, starts, ends, kinds);
        n += 1;
        at = e + 1;
    }
    None
}
