// The record's limit, and the end of the file. The definitions are `counts` and `file_end` of model's specs/rules/File.antt; a new state
// is a new case of `file_end`.
ghost use Rattle.std.specs.Prelude.{◌≡◌, ◌&&◌, leb};
ghost use Rattle.model.specs.rules.File.{counts, last_cell, file_end};
ghost use Rattle.model.specs.rules.Report.{MAXRECORD};

use model::{Cell, Dialect, Ending, FileState};

// Whether this byte is one too many for its record (§7.6).
pub fn is_full(f: FileState, size: usize, b: u8) -> bool
    ensures { result ≡ (leb MAXRECORD size && counts f b) }
{
    codes::MAX_RECORD <= size && file_lexer::counted::counted(f, b)
}

fn last_cell(d: Dialect, c: Cell) -> Ending
    ensures { result ≡ last_cell d c }
{
    match d {
        Dialect::Csvj | Dialect::Tdif => Ending::Cut,
        Dialect::CsvPlus(_) => {
            if codes::cell::is_whole(d, c) {
                Ending::Final
            } else {
                Ending::Cut
            }
        }
    }
}

// What the end of the file means in this state.
#[tactic(auto, unfolding(model::specs::rules::File::file_end))]
pub fn file_end(d: Dialect, f: FileState) -> Ending
    ensures { result ≡ file_end d f }
{
    match f {
        FileState::Top | FileState::Begin | FileState::Ended => Ending::Clean,
        FileState::Inside(c) => last_cell(d, c),
        FileState::Bom1
        | FileState::Bom2
        | FileState::PlainBom1
        | FileState::PlainBom2
        | FileState::Comment(_)
        | FileState::Blanks
        | FileState::ExpectCell
        | FileState::After
        | FileState::Cr => Ending::Cut,
    }
}
