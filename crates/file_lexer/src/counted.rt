// Whether a record's limit counts a byte: all but line breaks outside quotes (§7.4). The definition is `counts` of model's
// specs/rules/File.antt.
ghost use Rattle.std.specs.Prelude.{◌≡◌};
ghost use Rattle.model.specs.rules.File.{quotes_open, counts};

use model::{Cell, FileState};

fn quotes_open(f: FileState) -> bool
    ensures { result ≡ quotes_open f }
{
    matches!(
        f,
        FileState::Inside(Cell::Quoted(_) | Cell::Escape | Cell::Hex(_))
    )
}

// Whether a record's limit counts this byte.
pub fn counted(f: FileState, b: u8) -> bool
    ensures { result ≡ counts f b }
{
    !matches!(b, b'\r' | b'\n') || quotes_open(f)
}
