// The numbers of a lent state, in the order and layout of the fields of a `Converter`: where the conversion is, whether its end was
// accepted, and the report of a fault that was met. Definitions: specs/States.antt; `place_back` of proofs/Representation.antt is the
// round trip.
ghost use Rattle.std.specs.Prelude.{◌≡◌};
ghost use Rattle.piece_converter.specs.States.{place_in, stored_fault, numbers_of};

use model::Report;
use piece_state::place::Place;

// Indices, and no struct: the C interface lends these numbers as one array.
pub const STATE: usize = 0;

pub const OFFSET: usize = 1;

pub const START: usize = 2;

pub const SIZE: usize = 3;

pub const FILL: usize = 4;

pub const CELLS: usize = 5;

pub const COLUMNS: usize = 6;

pub const RECORDS: usize = 7;

pub const WRITTEN: usize = 8;
// 1 once an end was accepted.
pub const ENDED: usize = 9;
// The report of a fault that was met: number, record, column, offset. All 0 before.
pub const FAULT: usize = 10;

pub fn place_in(n: [usize; 14]) -> Place
    ensures { result ≡ place_in n }
{
    Place {
        state: piece_state::state_codes::state_of(n[STATE]),
        offset: n[OFFSET],
        start: n[START],
        size: n[SIZE],
        fill: n[FILL],
        cells: n[CELLS],
        columns: n[COLUMNS],
        records: n[RECORDS],
        written: n[WRITTEN],
    }
}

pub fn stored_fault(n: [usize; 14]) -> Report
    ensures { result ≡ stored_fault n }
{
    Report {
        number: n[FAULT],
        record_number: n[FAULT + 1],
        column: n[FAULT + 2],
        offset: n[FAULT + 3],
    }
}

pub fn numbers_of(p: Place, ended: usize, e: Report) -> [usize; 14]
    ensures { result ≡ numbers_of p ended e }
{
    let f = p.state;
    [
        piece_state::state_codes::state_number(f),
        p.offset,
        p.start,
        p.size,
        p.fill,
        p.cells,
        p.columns,
        p.records,
        p.written,
        ended,
        e.number,
        e.record_number,
        e.column,
        e.offset,
    ]
}
