// Where a conversion is between two calls, as numbers. `StateInvariant` (specs/Invariant.antt of piece_step) says which position of the
// reader they represent: a new field belongs there too, and in the numbers of piece_converter's state.rt.
ghost use Rattle.std.specs.Prelude.{◌≡◌, ◌+◌, ◌<◌, ◌^◌};
ghost use Rattle.piece_state.specs.Sound.{at_start, place_after};

use model::FileState;

#[derive(Clone, Copy)]
pub struct Place {
    pub state: FileState,
    // How many bytes have been consumed.
    pub offset: usize,
    // The current record: where it starts, how many of its bytes count, how many bytes of its cells are buffered, and how many of its cells
    // are complete.
    pub start: usize,
    pub size: usize,
    pub fill: usize,
    pub cells: usize,
    // The header's cells, the complete records, and the bytes written so far.
    pub columns: usize,
    pub records: usize,
    pub written: usize,
}

// Before the first call.
pub fn at_start() -> Place
    ensures { result ≡ at_start }
{
    Place {
        state: FileState::Top,
        offset: 0,
        start: 0,
        size: 0,
        fill: 0,
        cells: 0,
        columns: 0,
        records: 0,
        written: 0,
    }
}

impl Place {
    // After a record of `cells` cells, whose text has `size` bytes: the next one starts at `offset`.
    pub fn after_record(self, cells: usize, size: usize, state: FileState, offset: usize) -> Place
        requires { (self.records + 1 < 2 ^ 64) × (self.written + size < 2 ^ 64) }
        ensures { result ≡ place_after self cells size state offset }
    {
        Place {
            state,
            offset,
            start: offset,
            size: 0,
            fill: 0,
            cells: 0,
            columns: if self.records == 0 {
                cells
            } else {
                self.columns
            },
            records: self.records + 1,
            written: self.written + size,
        }
    }
}
