// The piece and end calls over a state that is lent field by field, so that nothing is copied. In: the state's numbers and arrays, and a
// piece; out: the text of the records that it completes, a report, and the next state in place of the old one. Definition: `CallContract`
// (specs/Contract.antt), the ledger's answer after any calls; proofs/Contract.antt has the argument for both calls.
ghost use Rattle.std.specs.Prelude.{◌≡◌, List, ℕ, Ok, Err, length};
ghost use Rattle.model.specs.declared.Report.{Report};
ghost use Rattle.model.specs.rules.Api.{unwritten};
ghost use Rattle.model.specs.rules.Ledger.{Call, piece, finish, bytes_of, room_of};
ghost use Rattle.codes.specs.Named.{text_answer};
ghost use Rattle.piece_state.specs.Checks.{check_now};
ghost use Rattle.piece_state.specs.declared.place.Place.{Place};
ghost use Rattle.piece_step.specs.Steps.{InBounds, current_in};
ghost use Rattle.piece_converter.specs.States.{place_in, stored_end, stored_fault, numbers_of};
ghost use Rattle.piece_converter.specs.Contract.{converter_of, CallContract};

use crate::state;
use codes::TextAnswer;
use model::{Dialect, Report};
use piece_run::bounds;
use piece_state::checks;
use piece_state::place::Place;
use piece_step::CallResult;

// Whether a call is taken: the two dialects, and the place that the numbers encode; or a refusal, which leaves the state as it is.
#[inline(always)]
fn begin(
    source: u32,
    target: u32,
    numbers: &[usize; 14],
    name_ends: &[usize; 64],
    ends: &[usize; 64],
    piece: usize,
    room: usize,
) -> Result<(Dialect, Dialect, Place), Report>
    ensures taken { (d t : Dialect) (p : Place) → result ≡ Ok (d, t, p) → (check_now source target (stored_fault numbers.now) (stored_end numbers.now) piece room ≡ Ok (d, t)) × (p ≡ place_in numbers.now) × InBounds p (current_in p name_ends.now ends.now) }
    ensures refused { (e : Report) → result ≡ Err e → (c : Call) (bytes names out : List ℕ) → length (bytes_of c) ≡ piece → room_of c ≡ room → CallContract (converter_of source target numbers.now ends.now name_ends.now bytes names) c out (text_answer (unwritten e)) (converter_of source target numbers.now ends.now name_ends.now bytes names) out }
{
    let (d, t) = checks::check_call(
        source,
        target,
        state::stored_fault(*numbers),
        numbers[state::ENDED],
        piece,
        room,
    )?;
    let p = state::place_in(*numbers);
    if !bounds::is_in_bounds(p, name_ends, ends) {
        return Err(codes::call_report(codes::WRONG_CALL));
    }
    Ok((d, t, p))
}

// Saves the next state's numbers.
#[inline(always)]
fn saved(numbers: &mut [usize; 14], r: CallResult, ended: usize) -> TextAnswer
    ensures saved { numbers.new ≡ numbers_of r.place ended r.report }
    ensures answer { result ≡ record { report = r.report; length = r.length } }
{
    *numbers = state::numbers_of(r.place, ended, r.report);
    TextAnswer {
        report: r.report,
        length: r.length,
    }
}

// The next bytes of the file.
pub fn piece(
    source: u32,
    target: u32,
    numbers: &mut [usize; 14],
    ends: &mut [usize; 64],
    name_ends: &mut [usize; 64],
    bytes: &mut [u8; 4096],
    names: &mut [u8; 4096],
    input: &[u8],
    out: &mut [u8],
) -> TextAnswer
    ensures { CallContract (converter_of source target numbers.old ends.old name_ends.old bytes.old names.old) (piece input.now (length out.old)) out.old result (converter_of source target numbers.new ends.new name_ends.new bytes.new names.new) out.new }
{
    match begin(
        source,
        target,
        numbers,
        name_ends,
        ends,
        input.len(),
        out.len(),
    ) {
        Err(e) => codes::refusal(e),
        Ok((d, t, p)) => {
            let r = piece_run::run::run_piece(d, t, input, p, names, name_ends, bytes, ends, out);
            saved(numbers, r, 0)
        }
    }
}

// The end of the file.
pub fn end(
    source: u32,
    target: u32,
    numbers: &mut [usize; 14],
    ends: &mut [usize; 64],
    name_ends: &mut [usize; 64],
    bytes: &mut [u8; 4096],
    names: &mut [u8; 4096],
    out: &mut [u8],
) -> TextAnswer
    ensures { CallContract (converter_of source target numbers.old ends.old name_ends.old bytes.old names.old) (finish (length out.old)) out.old result (converter_of source target numbers.new ends.new name_ends.new bytes.new names.new) out.new }
{
    match begin(source, target, numbers, name_ends, ends, 0, out.len()) {
        Err(e) => codes::refusal(e),
        Ok((d, t, p)) => {
            let r = piece_run::ending::end_file(d, t, p, names, name_ends, bytes, ends, out);
            saved(numbers, r, 1)
        }
    }
}
