// The step of the byte after a cell, in all three dialects: delimiters, blanks and endings. Each is the definition's (`after_cell` of
// model's specs/rules/File.antt), with its tests in the same order. A function a dialect: each has its own state after a CR.
ghost use Rattle.std.specs.Prelude.{◌≡◌};
ghost use Rattle.model.specs.rules.File.{is_blank, after_cell};

use model::{ByteFault, ByteRole, Cell, Dialect, FileState, Settings};

pub fn is_blank(b: u8) -> bool
    ensures { result ≡ is_blank b }
{
    matches!(b, b' ' | b'\t')
}

fn csvj_after(closes: bool, b: u8) -> Result<(FileState, ByteRole), ByteFault>
    ensures { result ≡ after_cell Dialect.Csvj closes b }
{
    match b {
        b' ' | b'\t' => Ok((FileState::After, ByteRole::Between { closes })),
        b',' => Ok((FileState::ExpectCell, ByteRole::Between { closes })),
        b'\n' => Ok((FileState::Begin, ByteRole::Ends { closes })),
        b'\r' => Ok((FileState::Cr, ByteRole::Tail { closes })),
        _ => Err(ByteFault::Syntax),
    }
}

fn tdif_after(closes: bool, b: u8) -> Result<(FileState, ByteRole), ByteFault>
    ensures { result ≡ after_cell Dialect.Tdif closes b }
{
    match b {
        b',' => Ok((FileState::Inside(Cell::Fresh), ByteRole::Between { closes })),
        b'\n' => Ok((FileState::Begin, ByteRole::Ends { closes })),
        b'\r' => Ok((FileState::Ended, ByteRole::Ends { closes })),
        _ => Err(ByteFault::Syntax),
    }
}

fn plus_after(s: Settings, closes: bool, b: u8) -> Result<(FileState, ByteRole), ByteFault>
    ensures { result ≡ after_cell (Dialect.CsvPlus s) closes b }
{
    if b == cell_lexer::delimiter_of(Dialect::CsvPlus(s)) {
        return Ok((FileState::Inside(Cell::Fresh), ByteRole::Between { closes }));
    }
    match b {
        b'\n' => Ok((FileState::Begin, ByteRole::Ends { closes })),
        b'\r' => Ok((FileState::Cr, ByteRole::Tail { closes })),
        _ => Err(ByteFault::Syntax),
    }
}

// The byte after a cell that ends before it (`closes`), or after blanks that follow a cell of CSVJ.
pub fn after_cell(d: Dialect, closes: bool, b: u8) -> Result<(FileState, ByteRole), ByteFault>
    ensures { result ≡ after_cell d closes b }
{
    match d {
        Dialect::Csvj => csvj_after(closes, b),
        Dialect::Tdif => tdif_after(closes, b),
        Dialect::CsvPlus(s) => plus_after(s, closes, b),
    }
}
