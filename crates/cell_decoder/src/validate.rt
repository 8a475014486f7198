// Whether raw bytes are a single cell: the cell's automaton runs over all of them, and its end is the check result. The definition is
// `validate_cell` of model's specs/rules/Decode.antt.
ghost use Rattle.std.specs.Prelude.{◌≡◌};
ghost use Rattle.model.specs.rules.Decode.{validate_cell};

use cell_scanner::CellEnd;
use codes::cell;
use model::{ByteFault, Cell, CellFault, Dialect, Fault};

// A single cell is all of raw, from its first byte on.
pub fn validate_cell(d: Dialect, raw: &[u8]) -> Result<(), CellFault>
    ensures { result ≡ validate_cell d raw.now }
{
    match cell_scanner::cell_end(d, Cell::Fresh, raw, 0, raw.len()) {
        CellEnd::Stopped(_, at) => Err(CellFault {
            fault: Fault::Byte(ByteFault::Syntax),
            offset: at,
        }),
        CellEnd::Refused(e, at) => Err(CellFault {
            fault: Fault::Byte(e),
            offset: at,
        }),
        CellEnd::Open(c) if cell::is_whole(d, c) => Ok(()),
        CellEnd::Open(_) => Err(CellFault {
            fault: Fault::CutShort,
            offset: raw.len(),
        }),
    }
}
