// One step over a piece: from a place to the end of the current record, or to the end of the piece.
//
// In: a piece, a place and the buffered cells; out: the text of a complete record, or more buffered bytes, and the next place. The
// scanner finds the cells, and their bytes are buffered one after another, from whichever calls they came. A complete record is checked
// and written from the buffer. Definition: `StepSound` (specs/Steps.antt), what reading results in by a step; proofs/Steps.antt has a law
// for each outcome of the scanner.
#![tactic(auto)]

ghost use Rattle.std.specs.Prelude.{◌≡◌, List, ◌+◌, ◌≤◌, ◌^◌, ◌<◌, length};
ghost use Rattle.model.specs.rules.Dialect.{into};
ghost use Rattle.model.specs.rules.Report.{MAXFILE, MAXCOLUMNS};
ghost use Rattle.model.specs.rules.Records.{Rec};
ghost use Rattle.model.specs.laws.Scans.{Buffered};
ghost use Rattle.model.specs.laws.Places.{buffered_bytes, buffered_ends};
ghost use Rattle.buffer.specs.Writes.{written};
ghost use Rattle.piece_state.specs.CurrentRecord.{SpansIn, raw_cells_at};
ghost use Rattle.piece_step.specs.Invariant.{start_from, StateInvariant};
ghost use Rattle.piece_step.specs.Steps.{Scratch, Lists, RecordCompleted, place_at_piece_end, RecordBuffered, step_after, Fitting, StepReady, StepInBounds, StepSound};

use codes::{MAX_COLUMNS, MAX_FILE};
use model::{Dialect, Fault, FileState, Report};
use piece_record::RecordError;
use piece_state::cells;
use piece_state::place::Place;
use record_scanner::record_state::RecordState;
use record_scanner::token::ScanOutcome;

pub mod fast;
pub mod in_cell;

// ---- what is buffered

// Appends the cells that end in this piece to the buffered ones. Returns how many bytes are buffered.
fn buffer_more(
    piece: &[u8],
    starts: &[usize],
    stops: &[usize],
    cells: usize,
    kept: usize,
    fill: usize,
    bytes: &mut [u8],
    ends: &mut [usize],
) -> usize
    requires spans_in { SpansIn piece.now starts.now stops.now 0 cells }
    requires cells_in_bounds { kept + cells ≤ length ends.old }
    requires cells_in_bounds_2 { fill + length (buffered_bytes (raw_cells_at piece.now starts.now stops.now 0 cells)) ≤ length bytes.old }
    ensures value { result ≡ fill + length (buffered_bytes (raw_cells_at piece.now starts.now stops.now 0 cells)) }
    ensures bytes_after { bytes.new ≡ written bytes.old fill (buffered_bytes (raw_cells_at piece.now starts.now stops.now 0 cells)) }
    ensures ends_after { ends.new ≡ written ends.old kept (buffered_ends fill (raw_cells_at piece.now starts.now stops.now 0 cells)) }
{
    cells::buffer_cells(
        piece,
        starts,
        stops,
        0,
        cells,
        bytes,
        fill,
        &mut ends[kept..],
    )
}

// ---- a complete record

// The current record is complete with `cells` cells that end in this piece: they are appended to the buffered ones, and the record is
// checked and written from there. With more cells than a record may have it is refused, and nothing has to be buffered.
fn complete_record(
    d: Dialect,
    t: Dialect,
    piece: &[u8],
    starts: &mut [usize],
    stops: &[usize],
    kinds: &mut [u8],
    cells: usize,
    p: Place,
    bytes: &mut [u8],
    ends: &mut [usize],
    out: &mut [u8],
    o: usize,
) -> Result<usize, RecordError>
    requires scratch { Scratch starts.old stops.now kinds.old }
    requires lists { Lists piece.now starts.old stops.now cells p bytes.old ends.old }
    requires written_bound { (p.written ≤ MAXFILE) × (o ≤ length out.old) }
    ensures { RecordCompleted d (into t) p (raw_cells_at piece.now starts.old stops.now 0 cells) (p.cells + cells) bytes.old ends.old o out.old bytes.new ends.new out.new result }
{
    let kept = p.cells;
    let total = kept + cells;
    if MAX_COLUMNS < total {
        return Err(RecordError::Refused(Fault::TooManyColumns));
    }
    buffer_more(piece, starts, stops, cells, kept, p.fill, bytes, ends);
    piece_record::complete(d, t, bytes, &ends[..total], p, out, o, starts, kinds)
}

// Where in the file the current record starts, by where it starts in the piece: one that starts where the step began may have started
// before.
fn record_start(p: Place, n: usize, i: usize, start: usize) -> usize
    requires { n + start < 2 ^ 64 }
    ensures { result ≡ start_from p n i start }
{
    if start == i { p.start } else { n + start }
}

// ---- the piece ends

fn need_input(
    p: Place,
    n: usize,
    i: usize,
    size: usize,
    state: FileState,
    h: RecordState,
    fill: usize,
) -> Place
    requires { (n + size < 2 ^ 64) × (h.start ≤ size) × (p.cells + h.cells < 2 ^ 64) }
    ensures { result ≡ place_at_piece_end p n i size state h fill }
{
    Place {
        state,
        offset: n + size,
        start: record_start(p, n, i, h.start),
        size: h.size,
        fill,
        cells: p.cells + h.cells,
        ..p
    }
}

// The current record is not complete: its cells that end in this piece are appended to the buffered ones, and so are the bytes of the
// open cell.
fn buffer_rest(
    p: Place,
    n: usize,
    i: usize,
    piece: &[u8],
    state: FileState,
    h: RecordState,
    starts: &[usize],
    stops: &[usize],
    bytes: &mut [u8],
    ends: &mut [usize],
) -> Place
    requires lists { Lists piece.now starts.now stops.now h.cells p bytes.old ends.old }
    requires piece_bound { (n + length piece.now < 2 ^ 64) × (h.start ≤ length piece.now) × (h.opened ≤ length piece.now) }
    requires piece_in_bounds { p.cells + h.cells ≤ MAXCOLUMNS → p.fill + length (buffered_bytes (raw_cells_at piece.now starts.now stops.now 0 h.cells)) + (length piece.now) ≤ length bytes.old + h.opened }
    ensures { RecordBuffered p n i state h piece.now (raw_cells_at piece.now starts.now stops.now 0 h.cells) (p.cells + h.cells) bytes.old ends.old bytes.new ends.new result }
{
    let kept = p.cells;
    let cells = h.cells;
    let opened = h.opened;
    if MAX_COLUMNS < kept + cells {
        return need_input(p, n, i, piece.len(), state, h, p.fill);
    }
    let fill = buffer_more(piece, starts, stops, cells, kept, p.fill, bytes, ends);
    let all = cells::buffer_open(&piece[opened..], bytes, fill);
    need_input(p, n, i, piece.len(), state, h, all)
}

// ---- a step

// The result of a step. It has four ways, and so it is no Option or Result.
#[derive(Clone, Copy)]
pub enum PieceStep {
    // A record was written, up to `end` of the output. The next step begins at `place`, which is index `at` of the piece.
    Next { place: Place, at: usize, end: usize },
    // The piece ended.
    NeedInput(Place),
    Failed(Report),
    // The state is none that calls make.
    BadState,
}

// The result of a call over a piece or at the end.
#[derive(Clone, Copy)]
pub struct CallResult {
    pub place: Place,
    pub report: Report,
    // How many bytes it wrote.
    pub length: usize,
}

// The result of a step whose record of `total` cells is complete, by what piece_record returned.
fn after_record(
    r: Result<usize, RecordError>,
    p: Place,
    n: usize,
    i: usize,
    start: usize,
    total: usize,
    state: FileState,
    next: usize,
    o: usize,
) -> PieceStep
    requires next_bound { (n + next ≤ MAXFILE) × (start ≤ next) × (p.records ≤ MAXFILE) }
    requires fitting { Fitting p o r }
    ensures { result ≡ step_after p n i start total state next o r }
{
    match r {
        Ok(end) => PieceStep::Next {
            place: p.after_record(total, end - o, state, n + next),
            at: next,
            end,
        },
        Err(RecordError::Refused(e)) => PieceStep::Failed(codes::record_report(
            e,
            p.records + 1,
            record_start(p, n, i, start),
        )),
        Err(RecordError::Invalid) => PieceStep::BadState,
    }
}

// One step, from index i of the piece on; n bytes were consumed before the piece. `starts`, `stops` and `kinds` are scratch lists, which
// each step overwrites. There is no struct of them, since the scanner takes three slices.
pub fn step(
    d: Dialect,
    t: Dialect,
    piece: &[u8],
    n: usize,
    i: usize,
    p: Place,
    bytes: &mut [u8],
    ends: &mut [usize],
    out: &mut [u8],
    o: usize,
    starts: &mut [usize],
    stops: &mut [usize],
    kinds: &mut [u8],
) -> PieceStep
    requires step_ready { StepReady piece.now n i p bytes.old ends.old out.old o }
    requires scratch { Scratch starts.old stops.old kinds.old }
    ensures step_in_bounds { StepInBounds piece.now n i ends.new out.old result }
    ensures step_sound { (done : List Rec) (k : Buffered) → StateInvariant d (into t) p bytes.old ends.old done k → StepSound d (into t) piece.now i p done k o out.old bytes.new ends.new out.new result }
{
    let f = p.state;
    match record_scanner::scan(
        d,
        piece,
        i,
        f,
        p.size,
        MAX_FILE - n,
        MAX_COLUMNS,
        0,
        starts,
        stops,
        kinds,
    ) {
        ScanOutcome::Completed {
            start,
            cells,
            state,
            next,
        } => {
            let r = complete_record(
                d, t, piece, starts, stops, kinds, cells, p, bytes, ends, out, o,
            );
            after_record(r, p, n, i, start, p.cells + cells, state, next, o)
        }
        ScanOutcome::NeedInput { state, hand: h } => PieceStep::NeedInput(buffer_rest(
            p, n, i, piece, state, h, starts, stops, bytes, ends,
        )),
        ScanOutcome::Failed { fault, offset } => PieceStep::Failed(codes::record_report(
            fault,
            p.records + 1,
            n + offset,
        )),
    }
}
