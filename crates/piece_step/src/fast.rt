// The fast path over a data record that lies whole in the piece: it is checked and written from the piece, and nothing of it is buffered.
// It returns the result of a step, or falls back to `step`. Definition: `FastStepSound` (specs/FastSteps.antt); proofs/FastSteps.antt
// derives it from the contract of record_fast, and proofs/FastText.antt from those of record_target and record_writer.
ghost use Rattle.std.specs.Prelude.{◌≡◌, true, List, ℕ, ◌+◌, ◌≤◌, length, take};
ghost use Rattle.model.specs.rules.Dialect.{into};
ghost use Rattle.model.specs.rules.Text.{Value};
ghost use Rattle.model.specs.rules.Report.{MAXFILE, MAXCOLUMNS};
ghost use Rattle.model.specs.rules.Records.{Rec};
ghost use Rattle.model.specs.laws.Scans.{Buffered};
ghost use Rattle.cell_fast.specs.Ends.{CleanIn};
ghost use Rattle.cell_decoder.specs.declared.source.Source.TheVariants.{File};
ghost use Rattle.cell_decoder.specs.Sources.{cells_in, Cells};
ghost use Rattle.piece_step.specs.Invariant.{StateInvariant};
ghost use Rattle.piece_step.specs.Steps.{Scratch};
ghost use Rattle.piece_step.specs.FastSteps.{FastTextSound, FastStepReady, Between, FastStepWrites, FastStepInBounds, FastStepSound};

use cell_decoder::source::Source;
use codes::{MAX_COLUMNS, MAX_FILE};
use model::{Dialect, FileState};
use piece_state::place::Place;
use record_writer::line;

// A record was written, up to `end` of the output. The next step begins at `place`, which is index `at` of the piece.
#[derive(Clone, Copy)]
pub struct Next {
    pub place: Place,
    pub at: usize,
    pub end: usize,
}

// ---- the text of a record

// Checks a data record under a header of `columns` cells, after `before` bytes of output, and writes it from index o of `out` on.
// Returns where the text ends.
fn write_record(
    d: Dialect,
    t: Dialect,
    piece: &[u8],
    starts: &[usize],
    stops: &[usize],
    kinds: &[u8],
    clean: bool,
    columns: usize,
    before: usize,
    out: &mut [u8],
    o: usize,
) -> Option<usize>
    requires cells { Cells (File d) piece.now starts.now stops.now kinds.now }
    requires clean_in { clean ≡ true → CleanIn d piece.now starts.now stops.now }
    requires before_bound { (before ≤ MAXFILE) × (o ≤ length out.old) }
    ensures { FastTextSound t columns before (cells_in (File d) piece.now starts.now stops.now kinds.now) o out.old out.new result }
{
    record_check::data(columns, starts.len()).ok()?;
    let src = Source::File(d);
    let length = record_target::check_target(
        src, t, piece, starts, stops, kinds, false, clean, before,
    ).ok()?;
    if out.len() - o < length {
        return None;
    }
    Some(line::write_line(src, t, piece, starts, stops, kinds, false, clean, out, o))
}

// ---- a step

// Completes a record of `cells` cells. The lists hold them if they are not more than a record may have.
fn finish_record(
    d: Dialect,
    t: Dialect,
    piece: &[u8],
    starts: &[usize],
    stops: &[usize],
    kinds: &[u8],
    cells: usize,
    state: FileState,
    next: usize,
    clean: bool,
    n: usize,
    p: Place,
    out: &mut [u8],
    o: usize,
) -> Option<Next>
    requires scratch { Scratch starts.now stops.now kinds.now }
    requires cells { cells ≤ MAXCOLUMNS → Cells (File d) piece.now (take cells starts.now) (take cells stops.now) (take cells kinds.now) }
    requires clean_in { cells ≤ MAXCOLUMNS → clean ≡ true → CleanIn d piece.now (take cells starts.now) (take cells stops.now) }
    requires written_bound { (p.written ≤ MAXFILE) × (p.records ≤ MAXFILE) × (n + next ≤ MAXFILE) × (o ≤ length out.old) }
    requires fact { p.records ≡ 0 → ⊥ }
    ensures { FastStepWrites t p n next state cells (cells_in (File d) piece.now (take cells starts.now) (take cells stops.now) (take cells kinds.now)) o out.old out.new result }
{
    if MAX_COLUMNS < cells {
        return None;
    }
    let end = write_record(
        d,
        t,
        piece,
        &starts[..cells],
        &stops[..cells],
        &kinds[..cells],
        clean,
        p.columns,
        p.written,
        out,
        o,
    )?;
    Some(Next {
        place: p.after_record(cells, end - o, state, n + next),
        at: next,
        end,
    })
}

// Whether a data record may begin here, with nothing counted of it yet.
fn is_between(p: Place) -> bool
    ensures { result ≡ true → Between p }
{
    p.records != 0 && p.size == 0 && matches!(p.state, FileState::Begin | FileState::Ended)
}

// The step from index i of the piece on, as `step` does it; n bytes were consumed before the piece. Falls back where fewer than `least`
// bytes are left.
pub fn data_record(
    d: Dialect,
    t: Dialect,
    piece: &[u8],
    n: usize,
    i: usize,
    least: usize,
    p: Place,
    out: &mut [u8],
    o: usize,
    starts: &mut [usize],
    stops: &mut [usize],
    kinds: &mut [u8],
) -> Option<Next>
    requires fast_step_ready { FastStepReady piece.now n i p out.old o }
    requires scratch { Scratch starts.old stops.old kinds.old }
    ensures fast_step_in_bounds { FastStepInBounds piece.now n i out.old out.new result }
    ensures by_index { (bytes ends : List ℕ) (done : List Rec) (k : Buffered) → StateInvariant d (into t) p bytes ends done k → FastStepSound d (into t) piece.now i p bytes ends done k o out.old out.new result }
{
    if piece.len() - i < least || !is_between(p) {
        return None;
    }
    let r = record_fast::scan(
        d,
        piece,
        i,
        p.state,
        MAX_FILE - n,
        MAX_COLUMNS,
        0,
        starts,
        stops,
        kinds,
    )?;
    finish_record(
        d, t, piece, starts, stops, kinds, r.cells, r.state, r.next, r.clean, n, p, out, o,
    )
}
