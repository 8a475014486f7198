// Step after step over a piece, from record to record, up to its end or a fault. Definition: `StepsSound` (specs/Runs.antt), reading to
// the end of the piece; proofs/Runs.antt has the loop's invariant, and a law for each result of a step.
ghost use Rattle.std.specs.Prelude.{◌≡◌, List, ℕ, ◌≤◌, length};
ghost use Rattle.model.specs.rules.Dialect.{into};
ghost use Rattle.model.specs.rules.Records.{Rec};
ghost use Rattle.model.specs.laws.Scans.{Buffered};
ghost use Rattle.piece_step.specs.Steps.{Scratch, StepReady};
ghost use Rattle.piece_run.specs.Runs.{StepsSoFar, Entered, StepsSound};

use model::{Dialect, Report};
use piece_state::place::Place;
use piece_step::fast::Next;
use piece_step::{CallResult, PieceStep};

// A call's result in one line, for each way that a run ends. ending.rt writes the fields out: its proofs then need no step for each field.
pub fn call_result(place: Place, report: Report, length: usize) -> CallResult
    ensures { result ≡ record { place = place; report = report; length = length } }
{
    CallResult {
        place,
        report,
        length,
    }
}

// The steps from index `from` of the piece on, with `at` bytes of the output written; n bytes were consumed before the piece. A record is
// expected to be as long as the one before it: where less of the piece is left it will hardly end there, and the fast path would only
// scan it twice. In a state that no calls made a record may end before it starts, so its length saturates.
pub fn run_steps(
    d: Dialect,
    t: Dialect,
    piece: &[u8],
    n: usize,
    from: usize,
    place: Place,
    bytes: &mut [u8],
    ends: &mut [usize],
    out: &mut [u8],
    at: usize,
    starts: &mut [usize],
    stops: &mut [usize],
    kinds: &mut [u8],
) -> CallResult
    requires step_ready { StepReady piece.now n from place bytes.old ends.old out.old at }
    requires scratch { Scratch starts.old stops.old kinds.old }
    ensures steps_sound { (began : Place) (done : List Rec) (k : Buffered) (out₀ : List ℕ) → Entered d (into t) piece.now began done k out₀ → length out.old ≡ length out₀ → (w : StepsSoFar d (into t) piece.now began done k out₀ from place bytes.old ends.old out.old at) → StepsSound d (into t) piece.now began done k w.done' out₀ bytes.new ends.new out.new result }
    ensures length_in_bounds { result.length ≤ length out.old }
{
    let mut p = place;
    let mut i = from;
    let mut o = at;
    let mut least = 0;
    loop {
        match piece_step::fast::data_record(
            d, t, piece, n, i, least, p, out, o, starts, stops, kinds,
        ) {
            Some(Next { place: q, at, end }) => {
                least = q.offset.saturating_sub(p.start);
                p = q;
                i = at;
                o = end;
            }
            None => match piece_step::step(
                d, t, piece, n, i, p, bytes, ends, out, o, starts, stops, kinds,
            ) {
                PieceStep::Next { place: q, at, end } => {
                    least = q.offset.saturating_sub(p.start);
                    p = q;
                    i = at;
                    o = end;
                }
                PieceStep::NeedInput(q) => {
                    return call_result(q, codes::call_report(codes::ACCEPTED), o);
                }
                PieceStep::Failed(e) => {
                    return call_result(p, e, o);
                }
                PieceStep::BadState => {
                    return call_result(p, codes::call_report(codes::WRONG_CALL), o);
                }
            },
        }
    }
}
