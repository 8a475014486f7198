// The rules' numbers of limits, faults and refused calls, each in one place, and the reports that have them; the layers above use faults by
// name. The numbers of dialects and kinds are model's (src/numbers.rt).
//
// The definitions are model's specs/rules/Report.antt; specs/Named.antt says what a `TextAnswer` means. They are tables: a number that
// changes there changes its arm here, and no other proof.
#![tactic(auto)]

ghost use Rattle.std.specs.Prelude.{◌≡◌};
ghost use Rattle.model.specs.rules.Report.{number_of, column_of, report, refusal};
ghost use Rattle.model.specs.rules.Api.{unwritten};
ghost use Rattle.codes.specs.Named.{text_answer};

use model::{ByteFault, Delimiter, Dialect, Fault, Kind, Quote, Report, Settings};

pub mod cell;

// ---- limits

// Bytes of a file (§7.1).
pub const MAX_FILE: usize = 16777215;

// Counted bytes of a record (§7.2), and so the most that a cell has.
pub const MAX_RECORD: usize = 4096;

// Cells of a record (§7.3).
pub const MAX_COLUMNS: usize = 64;

// Bytes of a piece (§15.7).
pub const MAX_PIECE: usize = 4096;

// The least size of the output of a piece or end call (§15.7).
pub const LEAST_OUTPUT: usize = 49152;

// ---- reports

fn byte_number(e: ByteFault) -> usize
    ensures { result ≡ number_of (Fault.Byte e) }
{
    match e {
        ByteFault::Encoding => 2,
        ByteFault::Syntax => 3,
    }
}

fn number_of(e: Fault) -> usize
    ensures { result ≡ number_of e }
{
    match e {
        Fault::NoRecord => 1,
        Fault::Byte(b) => byte_number(b),
        Fault::CutShort => 4,
        Fault::CellCount => 5,
        Fault::RepeatedName { .. } => 6,
        Fault::HeaderKind { .. } => 7,
        Fault::FileTooLong | Fault::RecordTooLong | Fault::TooManyColumns => 8,
        Fault::NoCells
        | Fault::LacksKind { .. }
        | Fault::LoneSurrogate { .. }
        | Fault::Clash { .. }
        | Fault::TextTooLong
        | Fault::OutputTooLong => 9,
    }
}

fn column_of(e: Fault) -> usize
    ensures { result ≡ column_of e }
{
    match e {
        Fault::RepeatedName { column }
        | Fault::HeaderKind { column }
        | Fault::LacksKind { column }
        | Fault::LoneSurrogate { column }
        | Fault::Clash { column } => column,
        Fault::NoRecord
        | Fault::Byte(_)
        | Fault::CutShort
        | Fault::CellCount
        | Fault::FileTooLong
        | Fault::RecordTooLong
        | Fault::TooManyColumns
        | Fault::NoCells
        | Fault::TextTooLong
        | Fault::OutputTooLong => 0,
    }
}

// The report of a fault in the record with this number at this offset. The number is 0 for a cell that is in no record.
pub fn record_report(e: Fault, number: usize, place: usize) -> Report
    ensures { result ≡ report (number_of e) number (column_of e) place }
{
    Report {
        number: number_of(e),
        record_number: number,
        column: column_of(e),
        offset: place,
    }
}

// Reports that name no record.
pub const ACCEPTED: usize = 0;

pub const NO_ROOM: usize = 10;

// An unknown dialect number, a call after an accepted end, or a saved state from which a piece converter can't proceed.
pub const WRONG_CALL: usize = 11;

pub const NOT_A_TABLE: usize = 12;

pub fn call_report(number: usize) -> Report
    ensures { result ≡ refusal number }
{
    Report {
        number,
        record_number: 0,
        column: 0,
        offset: 0,
    }
}

// ---- answers with a text

// What a call that writes a text returns: the report and the length of the text, 0 on refusal (§9.2). Its layout is C's, so that the C
// boundary returns it unchanged.
#[repr(C)]
#[derive(Clone, Copy)]
pub struct TextAnswer {
    pub report: Report,
    pub length: usize,
}

pub fn refusal(e: Report) -> TextAnswer
    ensures { result ≡ text_answer (unwritten e) }
{
    TextAnswer {
        report: e,
        length: 0,
    }
}
