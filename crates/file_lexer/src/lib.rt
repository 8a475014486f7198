// The automaton of a file around its cells, a byte at a time, in all three dialects: a state and a byte go in, the next state and the
// byte's role come out, or a fault. Each step is the definition's step of the same state (model's specs/rules/File.antt), with its tests
// in the same order; the prover finds their proofs by itself.
//
// `Dispatched` leaves the cell to the caller, so that most functions on the path of a byte have one call site and the compiler inlines
// them into the loop that calls them; `make benchmark` measures the effect.
#![tactic(auto, unfolding(model::specs::rules::Base::base_computes, model::specs::rules::File::file_computes))]

ghost use Rattle.std.specs.Prelude.{◌≡◌};
ghost use Rattle.model.specs.rules.Base.{choose◌then◌else◌, ◌is◌};
ghost use Rattle.model.specs.rules.File.{begin_record, begin_file, file_step};
ghost use Rattle.file_lexer.specs.Dispatched.{step_of};

use crate::separators::is_blank;
use model::{ByteFault, ByteRole, Cell, Char, Dialect, FileState, Inner, Lead};

pub mod counted;
pub mod separators;

// The step of a byte, or the cell that decides it.
#[derive(Clone, Copy)]
pub enum Dispatched {
    Is(Result<(FileState, ByteRole), ByteFault>),
    InCell(Cell),
    AfterCell,
}

fn begin_record(d: Dialect, b: u8) -> Dispatched
    ensures { step_of d result b ≡ begin_record d b }
{
    match d {
        Dialect::Csvj => match b {
            b' ' | b'\t' => {
                Dispatched::Is(Ok((FileState::Blanks, ByteRole::Between { closes: false })))
            }
            b'\n' => Dispatched::Is(Ok((FileState::Begin, ByteRole::Ends { closes: false }))),
            b'\r' => Dispatched::Is(Ok((FileState::Cr, ByteRole::Tail { closes: false }))),
            _ => Dispatched::InCell(Cell::Fresh),
        },
        Dialect::Tdif if b == b'#' => {
            Dispatched::Is(Ok((FileState::Comment(Char::Whole), ByteRole::Outside)))
        }
        Dialect::Tdif | Dialect::CsvPlus(_) => Dispatched::InCell(Cell::Fresh),
    }
}

fn begin_file(d: Dialect, b: u8) -> Dispatched
    ensures { step_of d result b ≡ begin_file d b }
{
    match d {
        Dialect::Csvj if b == 0xEF => Dispatched::Is(Ok((FileState::Bom1, ByteRole::Outside))),
        Dialect::CsvPlus(_) if b == 0xEF => {
            Dispatched::Is(Ok((FileState::PlainBom1, ByteRole::OfCell)))
        }
        _ => begin_record(d, b),
    }
}

fn in_comment(t: Char, b: u8) -> Result<(FileState, ByteRole), ByteFault>
    ensures { result ≡ file_step Dialect.Tdif (FileState.Comment t) b }
{
    match (t, b) {
        (Char::Whole, b'\n') => Ok((FileState::Begin, ByteRole::Passed)),
        (Char::Whole, b'\r') => Ok((FileState::Ended, ByteRole::Passed)),
        _ => match utf8::char_step(t, b) {
            Some(next) => Ok((FileState::Comment(next), ByteRole::Outside)),
            None => Err(ByteFault::Encoding),
        },
    }
}

fn after_ended(d: Dialect, b: u8) -> Dispatched
    ensures { step_of d result b ≡ file_step d FileState.Ended b }
{
    if b == b'\n' {
        Dispatched::Is(Ok((FileState::Begin, ByteRole::Passed)))
    } else {
        begin_record(d, b)
    }
}

// Only this byte may follow.
fn expect(
    wanted: u8,
    next: (FileState, ByteRole),
    b: u8,
) -> Result<(FileState, ByteRole), ByteFault>
    ensures { result ≡ (choose b is wanted then Ok next else Err ByteFault.Syntax) }
{
    if b == wanted {
        Ok(next)
    } else {
        Err(ByteFault::Syntax)
    }
}

fn in_plain_bom1(d: Dialect, b: u8) -> Dispatched
    ensures { step_of d result b ≡ file_step d FileState.PlainBom1 b }
{
    if b == 0xBB {
        Dispatched::Is(Ok((FileState::PlainBom2, ByteRole::OfCell)))
    } else {
        Dispatched::InCell(Cell::Plain(Char::Within(Inner::Second(Lead::EeToEf))))
    }
}

fn in_plain_bom2(d: Dialect, b: u8) -> Dispatched
    ensures { step_of d result b ≡ file_step d FileState.PlainBom2 b }
{
    if b == 0xBF {
        Dispatched::Is(Err(ByteFault::Syntax))
    } else {
        Dispatched::InCell(Cell::Plain(Char::Within(Inner::Last)))
    }
}

fn expect_cell(d: Dialect, b: u8) -> Dispatched
    ensures { step_of d result b ≡ file_step d FileState.ExpectCell b }
{
    if is_blank(b) {
        Dispatched::Is(Ok((FileState::ExpectCell, ByteRole::Between { closes: false })))
    } else {
        Dispatched::InCell(Cell::Fresh)
    }
}

// The step of a byte, up to the cell that decides it.
pub fn dispatch(d: Dialect, f: FileState, b: u8) -> Dispatched
    ensures { step_of d result b ≡ file_step d f b }
{
    match f {
        FileState::Top => begin_file(d, b),
        FileState::Begin | FileState::Blanks => begin_record(d, b),
        FileState::Ended => after_ended(d, b),
        FileState::Bom1 => Dispatched::Is(expect(0xBB, (FileState::Bom2, ByteRole::Outside), b)),
        FileState::Bom2 => Dispatched::Is(expect(0xBF, (FileState::Begin, ByteRole::Passed), b)),
        FileState::PlainBom1 => in_plain_bom1(d, b),
        FileState::PlainBom2 => in_plain_bom2(d, b),
        FileState::Comment(t) => Dispatched::Is(in_comment(t, b)),
        FileState::ExpectCell => expect_cell(d, b),
        FileState::Inside(c) => Dispatched::InCell(c),
        FileState::After => Dispatched::AfterCell,
        FileState::Cr => {
            let line_feed = (FileState::Begin, ByteRole::Ends { closes: false });
            Dispatched::Is(expect(b'\n', line_feed, b))
        }
    }
}
