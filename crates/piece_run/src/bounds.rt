// Whether a run from a state stays in bounds. In: any state a caller may pass; out: exactly `InBounds` (specs/Steps.antt of piece_step),
// which every state that calls make satisfies.
ghost use Rattle.std.specs.Prelude.{◌≡◌, true, length};
ghost use Rattle.model.specs.rules.Report.{MAXCOLUMNS};
ghost use Rattle.piece_step.specs.Steps.{InBounds, current_in};

use codes::{MAX_COLUMNS, MAX_FILE, MAX_RECORD};
use piece_state::checks;
use piece_state::place::Place;

// Only ends that are buffered are checked: a record with more cells than it may have has none.
fn is_buffered_in_bounds(p: Place, ends: &[usize]) -> bool
    requires { length ends.now ≡ MAXCOLUMNS }
    ensures in_bounds { result ≡ true → InBounds p ends.now }
    ensures value { InBounds p ends.now → result ≡ true }
{
    // Early, and no part of the chain below: in one chain each bound would be proved through a nest of cases.
    if MAX_RECORD < p.size
        || p.size < p.fill
        || MAX_FILE < p.offset
        || MAX_FILE < p.written
        || p.offset < p.records
        || p.offset < p.cells
    {
        return false;
    }
    checks::is_buffered_in_record(p)
        && (MAX_COLUMNS < p.cells || checks::is_in_order(ends, p.cells, p.fill))
}

// The same for the current ends: those of the header's names, or of another record's cells.
pub fn is_in_bounds(p: Place, name_ends: &[usize], ends: &[usize]) -> bool
    requires { (length name_ends.now ≡ MAXCOLUMNS) × (length ends.now ≡ MAXCOLUMNS) }
    ensures in_bounds { result ≡ true → InBounds p (current_in p name_ends.now ends.now) }
    ensures value { InBounds p (current_in p name_ends.now ends.now) → result ≡ true }
{
    // Two calls, and no choice of a slice: what a chosen slice holds would be proved by cases for each clause.
    if p.records == 0 {
        return is_buffered_in_bounds(p, name_ends);
    }
    is_buffered_in_bounds(p, ends)
}
