// The checks before a call, in the rules' order (§15.4 to §15.7), and two checks of a saved state, which keep a run over a piece in
// bounds: ends ascend, and cells are buffered only in a record. In: the saved numbers and the sizes of a call; out: a refusal, or the two
// dialects. Definitions: specs/Checks.antt and specs/Sound.antt. A new check is proved in proofs/CallChecks.antt, and then
// piece_converter again.
ghost use Rattle.std.specs.Prelude.{◌≡◌, ◌≤◌, length, take};
ghost use Rattle.piece_state.specs.Checks.{check_between, check_now};
ghost use Rattle.model.specs.laws.Scans.{in_record};
ghost use Rattle.piece_state.specs.Sound.{buffered_in_record, in_order};

use crate::place::Place;
use model::{Dialect, FileState, Report};

// The checks of a call between two known dialects. `fault.number` is 0 until a fault is met, and `ended` is 0 until an end is accepted:
// both are numbers that C saves in its struct.
fn check_between(
    d: Dialect,
    t: Dialect,
    fault: Report,
    ended: usize,
    piece: usize,
    room: usize,
) -> Result<(Dialect, Dialect), Report>
    ensures { result ≡ check_between d t fault ended piece room }
{
    if 0 < fault.number {
        return Err(fault);
    }
    if 0 < ended {
        return Err(codes::call_report(codes::WRONG_CALL));
    }
    if codes::MAX_PIECE < piece || room < codes::LEAST_OUTPUT {
        return Err(codes::call_report(codes::NO_ROOM));
    }
    Ok((d, t))
}

// The four checks before anything is read: a refusal, which may repeat an earlier fault; or the call proceeds, between these two
// dialects. Dialect numbers are saved as callers give them, in 32 bits, and are looked up at each call.
pub fn check_call(
    source: u32,
    target: u32,
    fault: Report,
    ended: usize,
    piece: usize,
    room: usize,
) -> Result<(Dialect, Dialect), Report>
    ensures { result ≡ check_now source target fault ended piece room }
{
    let Ok(d) = Dialect::try_from(source) else {
        return Err(codes::call_report(codes::WRONG_CALL));
    };
    let Ok(t) = Dialect::try_from(target) else {
        return Err(codes::call_report(codes::WRONG_CALL));
    };
    check_between(d, t, fault, ended, piece, room)
}

// ---- staying in bounds

// Whether the first n ends ascend, up to `fill`.
pub fn is_in_order(ends: &[usize], n: usize, fill: usize) -> bool
    requires { n ≤ length ends.now }
    ensures { result ≡ in_order 0 (take n ends.now) fill }
{
    let mut at = 0;
    for &end in &ends[..n] {
        if end < at {
            return false;
        }
        at = end;
    }
    at <= fill
}

// Whether a cell of the current record was begun or is complete.
pub fn in_record(f: FileState) -> bool
    ensures { result ≡ in_record f }
{
    matches!(
        f,
        FileState::PlainBom1
            | FileState::PlainBom2
            | FileState::ExpectCell
            | FileState::Inside(_)
            | FileState::After
            | FileState::Cr
    )
}

// Whether cells are buffered only in a record: outside of one `size` may restart at 0, and would say nothing about what is buffered.
pub fn is_buffered_in_record(p: Place) -> bool
    ensures { result ≡ buffered_in_record p }
{
    in_record(p.state) || (p.fill == 0 && p.cells == 0)
}
