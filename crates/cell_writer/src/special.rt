// Whether CSV+ quotes a content (§14.7): the encoding and the raw bytes go in, the decision comes out. The definition is `has_quotes` of
// model's specs/rules/Text.antt. The content is read by runs and units and not decoded, except for the byte order mark of a first header
// cell.
ghost use Rattle.std.specs.Prelude.{◌≡◌, ◌<◌, length};
ghost use Rattle.model.specs.rules.Base.{holds};
ghost use Rattle.model.specs.rules.Text.{special, begins_bom, has_quotes};
ghost use Rattle.cell_decoder.specs.Units.{Unit};
ghost use Rattle.cell_decoder.specs.FirstByte.{content_in};
ghost use Rattle.cell_writer.specs.Contents.{Decoded};

use crate::unit;
use crate::unit::Encoded;
use cell_decoder::content;
use cell_decoder::first_byte::Spelling;
use codes::MAX_RECORD;
use model::{Dialect, Settings};

fn is_special(s: Settings, b: u8) -> bool
    ensures { result ≡ special s b }
{
    let t = Dialect::CsvPlus(s);
    b == cell_lexer::quote_of(t) || b == cell_lexer::delimiter_of(t) || b == b'\r' || b == b'\n'
}

// Whether a unit needs quotes: only a single byte may.
fn is_special_unit(s: Settings, unit: &[u8]) -> bool
    requires { 0 < length unit.now → Unit unit.now }
    ensures { result ≡ holds (special s) unit.now }
{
    unit.len() == 1 && is_special(s, unit[0])
}

// Whether a byte of the content needs quotes.
fn holds_special(s: Settings, c: Spelling, raw: &[u8]) -> bool
    ensures { result ≡ holds (special s) (content_in c raw.now) }
{
    let p = cell_lexer::quote_of(Dialect::CsvPlus(s));
    let q = unit::quote_in(c);
    let r = cell_lexer::delimiter_of(Dialect::CsvPlus(s));
    let mut i = unit::content_start(c, raw);
    // No `for`: a run and a unit have any length.
    while i < raw.len() {
        let j = crate::plain::plain_run(raw, i, p, q, r);
        if raw.len() <= j {
            return false;
        }
        let u = unit::unit_at(c, raw, j);
        if is_special_unit(s, u.text.as_slice()) {
            return true;
        }
        i = u.next;
    }
    false
}

fn is_bom(content: &[u8]) -> bool
    ensures { result ≡ begins_bom content.now }
{
    matches!(content, [0xEF, 0xBB, 0xBF, ..])
}

// The content of a cell that has to be decoded is at most a record long.
fn decodes_to_bom(e: Encoded) -> bool
    requires { Decoded e.spelling e.raw.now }
    ensures { result ≡ begins_bom (content_in e.entry.spelling e.entry.raw.now) }
{
    let mut room = [0u8; MAX_RECORD];
    let size = content::write_in(e.spelling, e.raw, &mut room);
    is_bom(&room[..size])
}

fn begins_with_bom(e: Encoded) -> bool
    ensures { result ≡ begins_bom (content_in e.entry.spelling e.entry.raw.now) }
{
    match e.spelling {
        Spelling::Nothing => false,
        Spelling::AsItStands => is_bom(e.raw),
        Spelling::Doubled(_) | Spelling::Escaped => decodes_to_bom(e),
    }
}

// Whether a cell of this content is in quotes. `only`: its record has no other cell; `first`: it is the first header cell.
pub fn is_quoted(s: Settings, e: Encoded, only: bool, first: bool) -> bool
    ensures { result ≡ has_quotes s only first (content_in e.entry.spelling e.entry.raw.now) }
{
    holds_special(s, e.spelling, e.raw)
        || only && content::length_in(e.spelling, e.raw) == 0
        || first && begins_with_bom(e)
}
