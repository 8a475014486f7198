// The piece converter: a file comes in pieces, and the state between two of them is plain numbers and bytes. The definition is the ledger
// of model's specs/rules/Ledger.antt.
//
// The calls take the state by value and return the next one, or work on a state that is lent field by field (`lent`). No call requires
// anything of the state: it may be any numbers and bytes. A new field of the state is also one of state.rt, of `converter_of` in
// specs/Contract.antt, of include/hemakuliwi.h and of rust/hemakuliwi/src/raw.rs.
#![tactic(auto)]

ghost use Rattle.std.specs.Prelude.{◌≡◌, length};
ghost use Rattle.model.specs.rules.Ledger.{piece, finish};
ghost use Rattle.piece_converter.specs.States.{numbers_by_field};
ghost use Rattle.piece_converter.specs.Contract.{converter_of, new_converter, CallContract};

use codes::TextAnswer;
use model::Report;

pub mod lent;
pub mod state;

// All fields are plain, so that a state may be copied and stored, and any bytes are a state. Zeros are a converter of no dialect.
#[repr(C)]
#[derive(Clone, Copy)]
pub struct Converter {
    // The dialect numbers that it was made with.
    pub source: u32,
    pub target: u32,
    // Where the conversion is: the reader's state by its number, and how many bytes were consumed.
    pub state: usize,
    pub offset: usize,
    // The current record: where it starts, how many of its bytes count, how many bytes of its cells are buffered in `bytes`, and how many of
    // its cells are complete.
    pub start: usize,
    pub size: usize,
    pub fill: usize,
    pub cells: usize,
    // The header's cells, the complete records, and the bytes written so far.
    pub columns: usize,
    pub records: usize,
    pub written: usize,
    // 1 once an end was accepted.
    pub ended: usize,
    // The report of a fault that was met. All 0 before.
    pub fault: Report,
    // Where the complete cells of the current record end in `bytes`, and the header's names in `names`.
    pub ends: [usize; 64],
    pub name_ends: [usize; 64],
    pub bytes: [u8; 4096],
    pub names: [u8; 4096],
}

// What a call returns, and the state for the next one.
#[repr(C)]
#[derive(Clone, Copy)]
pub struct PieceAnswer {
    pub answer: TextAnswer,
    pub next: Converter,
}

impl Converter {
    // A converter from one dialect to another. The numbers may be any: with one that is no dialect's every call is refused.
    pub fn new(source: u32, target: u32) -> Converter
        ensures { result ≡ new_converter source target }
    {
        Converter {
            source,
            target,
            state: 0,
            offset: 0,
            start: 0,
            size: 0,
            fill: 0,
            cells: 0,
            columns: 0,
            records: 0,
            written: 0,
            ended: 0,
            fault: Report {
                number: 0,
                record_number: 0,
                column: 0,
                offset: 0,
            },
            ends: [0usize; 64],
            name_ends: [0usize; 64],
            bytes: [0u8; 4096],
            names: [0u8; 4096],
        }
    }

    // The numbers in the order of the fields, as `lent` takes them.
    #[inline(always)]
    fn numbers(&self) -> [usize; 14]
        ensures { result ≡ numbers_by_field self.now }
    {
        [
            self.state,
            self.offset,
            self.start,
            self.size,
            self.fill,
            self.cells,
            self.columns,
            self.records,
            self.written,
            self.ended,
            self.fault.number,
            self.fault.record_number,
            self.fault.column,
            self.fault.offset,
        ]
    }

    // The same state with these numbers.
    #[inline(always)]
    fn with(self, numbers: [usize; 14]) -> Converter
        ensures { result ≡ converter_of self.source self.target numbers self.ends self.name_ends self.bytes self.names }
    {
        Converter {
            state: numbers[state::STATE],
            offset: numbers[state::OFFSET],
            start: numbers[state::START],
            size: numbers[state::SIZE],
            fill: numbers[state::FILL],
            cells: numbers[state::CELLS],
            columns: numbers[state::COLUMNS],
            records: numbers[state::RECORDS],
            written: numbers[state::WRITTEN],
            ended: numbers[state::ENDED],
            fault: state::stored_fault(numbers),
            ..self
        }
    }

    // The next bytes of the file.
    pub fn piece(self, input: &[u8], out: &mut [u8]) -> PieceAnswer
        ensures { CallContract self (piece input.now (length out.old)) out.old result.answer result.next out.new }
    {
        let mut numbers = self.numbers();
        let mut next = self;
        let answer = lent::piece(
            self.source,
            self.target,
            &mut numbers,
            &mut next.ends,
            &mut next.name_ends,
            &mut next.bytes,
            &mut next.names,
            input,
            out,
        );
        PieceAnswer {
            answer,
            next: next.with(numbers),
        }
    }

    // The end of the file.
    pub fn end(self, out: &mut [u8]) -> PieceAnswer
        ensures { CallContract self (finish (length out.old)) out.old result.answer result.next out.new }
    {
        let mut numbers = self.numbers();
        let mut next = self;
        let answer = lent::end(
            self.source,
            self.target,
            &mut numbers,
            &mut next.ends,
            &mut next.name_ends,
            &mut next.bytes,
            &mut next.names,
            out,
        );
        PieceAnswer {
            answer,
            next: next.with(numbers),
        }
    }
}
