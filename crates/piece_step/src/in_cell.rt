// The fast path over a piece that lies inside one cell: if all its bytes are ordinary ASCII they are buffered, and nothing else is to be
// done. It returns the result of a step, or falls back. Long texts in small pieces take this path. Definition: `InCellSound`
// (specs/InCell.antt); proofs/InCell.antt follows the scan over ordinary bytes.
ghost use Rattle.std.specs.Prelude.{◌≡◌, true, ◌≤◌, length};
ghost use Rattle.model.specs.rules.Report.{MAXFILE, MAXRECORD, MAXCOLUMNS};
ghost use Rattle.piece_step.specs.Steps.{InBounds};
ghost use Rattle.piece_step.specs.InCell.{Fits, InCellSound};

use codes::{MAX_COLUMNS, MAX_FILE, MAX_RECORD};
use model::{Dialect, FileState};
use piece_state::cells;
use piece_state::place::Place;
use record_writer::words;

// Whether `size` more bytes of a cell stay within the limits.
fn fits(p: Place, size: usize) -> bool
    requires { (p.size ≤ MAXRECORD) × (p.offset ≤ MAXFILE) }
    ensures { result ≡ true → Fits p size }
{
    p.cells <= MAX_COLUMNS && size <= MAX_RECORD - p.size && size <= MAX_FILE - p.offset
}

// The step over a whole piece after the header, as `step` does it: all bytes are buffered, and the next call begins at this place.
pub fn step(d: Dialect, piece: &[u8], p: Place, bytes: &mut [u8], ends: &[usize]) -> Option<Place>
    requires in_bounds { InBounds p ends.now }
    requires bytes_len { (length bytes.old ≡ MAXRECORD) × (length ends.now ≡ MAXCOLUMNS) }
    ensures { InCellSound d piece.now p bytes.old ends.now bytes.new result }
{
    if !fits(p, piece.len()) {
        return None;
    }
    let FileState::Inside(c) = p.state else {
        return None;
    };
    let q = cell_scanner::run_stop(d, c)?;
    let quote = cell_lexer::quote_of(d);
    if !words::all_words(piece, 0, piece.len(), |w| swar::unordinary(w, quote, q)) {
        return None;
    }
    let fill = cells::buffer_open(piece, bytes, p.fill);
    Some(Place {
        offset: p.offset + piece.len(),
        size: p.size + piece.len(),
        fill,
        ..p
    })
}
