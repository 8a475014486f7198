// The current record as four numbers, and the effect of a byte on them. The definition is `state_after_byte` of specs/CurrentRecord.antt.
ghost use Rattle.std.specs.Prelude.{◌≡◌, ◌+◌, ◌^◌, ◌<◌};
ghost use Rattle.record_scanner.specs.CurrentRecord.{closes_cell, ends_record, one_more, state_after_byte, extended_by};

use model::ByteRole;

// The record that is being read, or the next one.
#[derive(Clone, Copy)]
pub struct RecordState {
    // Where it starts.
    pub start: usize,
    // How many of its bytes are counted.
    pub size: usize,
    // Where its current cell starts, or the next one.
    pub opened: usize,
    // How many of its cells are complete.
    pub cells: usize,
}

// Whether a cell ends before this byte.
pub fn closes_cell(p: ByteRole) -> bool
    ensures { result ≡ closes_cell p }
{
    match p {
        ByteRole::Outside | ByteRole::Passed | ByteRole::OfCell => false,
        ByteRole::Between { closes } | ByteRole::Tail { closes } | ByteRole::Ends { closes } =>
            closes,
    }
}

// Whether this is a record's last byte.
pub fn ends_record(p: ByteRole) -> bool
    ensures { result ≡ ends_record p }
{
    matches!(p, ByteRole::Ends { closes: _ })
}

impl RecordState {
    // The number of complete cells, with the one that ends.
    fn one_more(self, closes: bool) -> usize
        requires { self.cells + 1 < 2 ^ 64 }
        ensures { result ≡ one_more closes self.cells }
    {
        self.cells + usize::from(closes)
    }

    // The current record after the byte at i, which has this role.
    pub fn after_byte(self, p: ByteRole, i: usize) -> RecordState
        requires { (i + 1 < 2 ^ 64) × (self.size + 1 < 2 ^ 64) × (self.cells + 1 < 2 ^ 64) }
        ensures { result ≡ state_after_byte p i self }
    {
        let opened = i + 1;
        match p {
            ByteRole::Outside => RecordState {
                size: 0,
                opened,
                cells: 0,
                ..self
            },
            ByteRole::Passed => RecordState {
                start: opened,
                size: 0,
                opened,
                cells: 0,
            },
            ByteRole::OfCell => self.after_bytes(1),
            ByteRole::Between { closes } => RecordState {
                size: self.size + 1,
                opened,
                cells: self.one_more(closes),
                ..self
            },
            ByteRole::Tail { closes } | ByteRole::Ends { closes } => RecordState {
                opened,
                cells: self.one_more(closes),
                ..self
            },
        }
    }

    // The current record after n more bytes of a cell.
    pub fn after_bytes(self, n: usize) -> RecordState
        requires { self.size + n < 2 ^ 64 }
        ensures { result ≡ extended_by self n }
    {
        RecordState {
            size: self.size + n,
            ..self
        }
    }
}
