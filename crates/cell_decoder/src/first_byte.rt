// The encoding of a cell's content, from its first byte. The definition is `spelling_by` of specs/FirstByte.antt.
ghost use Rattle.std.specs.Prelude.{◌≡◌};
ghost use Rattle.cell_decoder.specs.FirstByte.{spelling_by};
ghost use Rattle.model.specs.declared.Dialect.TheVariants.{Csvj};

use model::Dialect;

// How the content of a cell is encoded.
#[derive(Clone, Copy)]
pub enum Spelling {
    // There is no content.
    Nothing,
    // The content is the raw cell.
    AsItStands,
    // After this quote, with each quote inside doubled.
    Doubled(u8),
    // A string of CSVJ.
    Escaped,
}

fn csvj_spelling(b: u8) -> Spelling
    ensures { result ≡ spelling_by Csvj b }
{
    match b {
        b'"' => Spelling::Escaped,
        b'-' | b'0'..=b'9' => Spelling::AsItStands,
        _ => Spelling::Nothing,
    }
}

pub fn spelling_by(d: Dialect, b: u8) -> Spelling
    ensures { result ≡ spelling_by d b }
{
    let q = cell_lexer::quote_of(d);
    match d {
        Dialect::Csvj => csvj_spelling(b),
        _ if b == q => Spelling::Doubled(q),
        Dialect::Tdif => Spelling::Nothing,
        Dialect::CsvPlus(_) => Spelling::AsItStands,
    }
}
