// The next token of a file, mostly a whole cell: a state and an offset go in; the step of a byte comes out, or where a cell or the
// ordinary bytes of a comment end. The definition is `TokenCorrect` of specs/Tokens.antt, proved in proofs/TokenOutcomes.antt. Beside it
// are the limits (limits.rt), the current record after a byte (record_state.rt), and the storing of its cells (store.rt).
ghost use Rattle.std.specs.Prelude.{◌≡◌, ◌+◌, ◌≤◌, ◌<◌, length};
ghost use Rattle.model.specs.rules.Report.{MAXFILE};
ghost use Rattle.record_scanner.specs.Tokens.{TokenCorrect, TokenInBounds, Free, comment_end};

use crate::record_state::RecordState;
use cell_scanner::CellEnd;
use codes::MAX_RECORD;
use file_lexer::Dispatched;
use model::{ByteFault, ByteRole, Cell, Char, Dialect, Fault, FileState};

// The outcome of scanning a part of a file. All offsets are those of the part.
#[derive(Clone, Copy)]
pub enum ScanOutcome {
    // A record is complete: its start, the number of its cells that end in the part, the file's state after it, and the next offset.
    Completed {
        start: usize,
        cells: usize,
        state: FileState,
        next: usize,
    },
    // The part ended: the file's state, and the current record.
    NeedInput {
        state: FileState,
        hand: RecordState,
    },
    // A fault at this offset.
    Failed {
        fault: Fault,
        offset: usize,
    },
}

// The next token.
#[derive(Clone, Copy)]
pub enum Token {
    // The next byte takes this step.
    Is(Result<(FileState, ByteRole), ByteFault>),
    // Ordinary bytes of a comment, up to here.
    Skipped(usize),
    // The byte here follows a cell that ends before it (`closes`), or blanks after a cell.
    AfterCell { closes: bool, at: usize },
    // This byte can't be in the cell.
    Refused(ByteFault, usize),
    // The cell is still open here.
    Open(Cell, usize),
}

// The offset up to which no byte from i on can be too many for the file or the record.
fn limit_end(total: usize, i: usize, size: usize, limit: usize) -> usize
    requires { (i < total) × (i < limit) × (limit ≤ MAXFILE) }
    ensures { Free total limit i size result }
{
    if MAX_RECORD <= size {
        return i + 1;
    }
    total.min(limit).min(i + (MAX_RECORD - size))
}

// The end of a comment's ordinary bytes, if reading is in one; a run of none ends at i.
fn comment_end(f: FileState, part: &[u8], i: usize, limit: usize) -> usize
    requires { (i < length part.now) × (i < limit) }
    ensures { result ≡ comment_end f part.now limit i }
{
    match f {
        FileState::Comment(Char::Whole) => cell_scanner::comment_run(
            part,
            i,
            part.len().min(limit),
        ),
        _ => i,
    }
}

// The token at i, whose byte is not one too many. A cell is read until it ends or a limit may be reached.
pub fn next_token(
    d: Dialect,
    part: &[u8],
    f: FileState,
    i: usize,
    size: usize,
    limit: usize,
) -> Token
    requires { (i < length part.now) × (i < limit) × (limit ≤ MAXFILE) }
    ensures lies { TokenInBounds d limit part.now f i result }
    ensures token_correct { TokenCorrect d limit part.now f i size result }
{
    match file_lexer::dispatch(d, f, part[i]) {
        Dispatched::Is(s) => {
            let j = comment_end(f, part, i, limit);
            if i < j {
                return Token::Skipped(j);
            }
            Token::Is(s)
        }
        Dispatched::AfterCell => Token::AfterCell {
            closes: false,
            at: i,
        },
        Dispatched::InCell(c) => {
            let stop = limit_end(part.len(), i, size, limit);
            match cell_scanner::cell_end(d, c, part, i, stop) {
                CellEnd::Stopped(_, j) => Token::AfterCell {
                    closes: true,
                    at: j,
                },
                CellEnd::Refused(e, j) => Token::Refused(e, j),
                CellEnd::Open(t) => Token::Open(t, stop),
            }
        }
    }
}
