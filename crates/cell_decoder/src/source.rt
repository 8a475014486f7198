// What the bytes of a cell are: its raw bytes in a file of some dialect, or the content itself, as the writer gets it. So the checks and
// writers above have one proof for both. The definitions are those of specs/Sources.antt.
ghost use Rattle.std.specs.Prelude.{◌≡◌};
ghost use Rattle.model.specs.rules.Text.{is_text};
ghost use Rattle.cell_decoder.specs.FirstByte.{content_in};
ghost use Rattle.cell_decoder.specs.Sources.{kind_from, content_by, spelling_in};

use crate::first_byte;
use crate::first_byte::Spelling;
use codes::cell;
use model::{Dialect, Kind};

// No `Option<Dialect>`: its `None` would not say that the bytes are the content.
#[derive(Clone, Copy)]
pub enum Source {
    File(Dialect),
    Contents,
}

// The kind that a number names, and null for a number that names none.
pub fn kind_of_number(number: u8) -> Kind
    ensures { result ≡ kind_from number }
{
    Kind::try_from(number).unwrap_or(Kind::Null)
}

pub fn is_text(k: Kind) -> bool
    ensures { result ≡ is_text k }
{
    matches!(k, Kind::Text)
}

// The encoding of a cell's content.
pub fn spelling_in(src: Source, raw: &[u8]) -> Spelling
    ensures raw_value { content_in result raw.now ≡ content_by src raw.now }
    ensures value { result ≡ spelling_in src raw.now }
{
    match src {
        Source::File(d) => first_byte::spelling_by(d, cell::first_of(raw)),
        Source::Contents => Spelling::AsItStands,
    }
}
