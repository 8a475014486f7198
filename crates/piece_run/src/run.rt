// A call over a piece: inside a cell, or step by step. In: a piece, the place and the buffered cells; out: the text of the records it
// completes, a report and the next place. Definition: `PieceRunSound` (specs/PieceRun.antt); proofs/PieceRun.antt joins the header's step
// to the steps after it.
ghost use Rattle.std.specs.Prelude.{List, ◌≤◌, length};
ghost use Rattle.model.specs.rules.Base.{Bytes};
ghost use Rattle.model.specs.rules.Dialect.{into};
ghost use Rattle.model.specs.rules.Records.{Rec};
ghost use Rattle.model.specs.laws.Scans.{Buffered};
ghost use Rattle.piece_step.specs.Steps.{StepReady};
ghost use Rattle.piece_step.specs.Calls.{ReadyPiece, Begun};
ghost use Rattle.piece_run.specs.Runs.{StepsSoFar, Entered, StepsSound};
ghost use Rattle.piece_run.specs.PieceRun.{PieceRunSound};

use crate::steps::{call_result, run_steps};
use codes::MAX_COLUMNS;
use model::Dialect;
use piece_state::place::Place;
use piece_step::{CallResult, PieceStep};

// A piece after the header. The scratch lists are zeroed only where they are needed.
fn run_after_header(
    d: Dialect,
    t: Dialect,
    piece: &[u8],
    place: Place,
    bytes: &mut [u8],
    ends: &mut [usize],
    out: &mut [u8],
) -> CallResult
    requires { StepReady piece.now place.offset 0 place bytes.old ends.old out.old 0 }
    ensures steps_sound { (done : List Rec) (k : Buffered) → Entered d (into t) piece.now place done k out.old → (w : StepsSoFar d (into t) piece.now place done k out.old 0 place bytes.old ends.old out.old 0) → StepsSound d (into t) piece.now place done k w.done' out.old bytes.new ends.new out.new result }
    ensures length_in_bounds { result.length ≤ length out.old }
{
    if let Some(q) = piece_step::in_cell::step(d, piece, place, bytes, ends) {
        return call_result(q, codes::call_report(codes::ACCEPTED), 0);
    }
    let mut starts = [0usize; MAX_COLUMNS];
    let mut stops = [0usize; MAX_COLUMNS];
    let mut kinds = [0u8; MAX_COLUMNS];
    run_steps(
        d,
        t,
        piece,
        place.offset,
        0,
        place,
        bytes,
        ends,
        out,
        0,
        &mut starts,
        &mut stops,
        &mut kinds,
    )
}

// A piece. The header's cells are buffered in `names` and `name_ends`, those of other records in `bytes` and `ends`.
pub fn run_piece(
    d: Dialect,
    t: Dialect,
    piece: &[u8],
    place: Place,
    names: &mut [u8],
    name_ends: &mut [usize],
    bytes: &mut [u8],
    ends: &mut [usize],
    out: &mut [u8],
) -> CallResult
    requires { ReadyPiece place names.old name_ends.old bytes.old ends.old }
    ensures piece_run_sound { (before : Bytes) (done : List Rec) (k : Buffered) → Begun d (into t) before piece.now place names.old name_ends.old bytes.old ends.old out.old done k → PieceRunSound d (into t) before piece.now place done k out.old names.new name_ends.new bytes.new ends.new out.new result }
    ensures length_in_bounds { result.length ≤ length out.old }
{
    if 0 < place.records {
        return run_after_header(d, t, piece, place, bytes, ends, out);
    }
    let mut starts = [0usize; MAX_COLUMNS];
    let mut stops = [0usize; MAX_COLUMNS];
    let mut kinds = [0u8; MAX_COLUMNS];
    let n = place.offset;
    match piece_step::step(
        d,
        t,
        piece,
        n,
        0,
        place,
        names,
        name_ends,
        out,
        0,
        &mut starts,
        &mut stops,
        &mut kinds,
    ) {
        PieceStep::Next { place: q, at, end } => run_steps(
            d,
            t,
            piece,
            n,
            at,
            q,
            bytes,
            ends,
            out,
            end,
            &mut starts,
            &mut stops,
            &mut kinds,
        ),
        PieceStep::NeedInput(q) => call_result(q, codes::call_report(codes::ACCEPTED), 0),
        PieceStep::Failed(e) => call_result(place, e, 0),
        PieceStep::BadState => call_result(place, codes::call_report(codes::WRONG_CALL), 0),
    }
}
