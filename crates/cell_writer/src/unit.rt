// One unit of a cell's content: an offset in the raw cell goes in; the unit's bytes and the offset where the content continues come out.
// The definition is `Part` of specs/Contents.antt.
ghost use Rattle.std.specs.Prelude.{◌≡◌, ◌<◌, length};
ghost use Rattle.cell_decoder.specs.FirstByte.{content_in};
ghost use Rattle.cell_decoder.specs.declared.first_byte.Spelling.TheVariants.{Doubled, Escaped};
ghost use Rattle.cell_writer.specs.Contents.{content_from, source_quote, Legible, Part};

use cell_decoder::escape::Unescaped;
use cell_decoder::first_byte::Spelling;
use cell_decoder::{content, escape};

// The bytes of a cell, and how its content is encoded in them. A content that has to be decoded is that of a sound cell.
#[derive(Clone, Copy)]
pub struct Encoded<'a> {
    pub spelling: Spelling,
    pub raw: &'a [u8],
    ghost legible: { Legible spelling raw.now },
}

// Where the content begins: for a cell without content, at its end.
pub fn content_start(c: Spelling, raw: &[u8]) -> usize
    ensures { content_from c raw.now result ≡ content_in c raw.now }
{
    match c {
        Spelling::Nothing => raw.len(),
        Spelling::AsItStands => 0,
        Spelling::Doubled(_) | Spelling::Escaped => 1,
    }
}

// The quote that is not verbatim in the cell.
pub fn quote_in(c: Spelling) -> u8
    ensures { result ≡ source_quote c }
{
    match c {
        Spelling::Doubled(q) => q,
        Spelling::Nothing | Spelling::AsItStands | Spelling::Escaped => b'"',
    }
}

fn doubled_at(q: u8, raw: &[u8], i: usize) -> Unescaped
    requires { i < length raw.now }
    ensures { Part (Doubled q) raw.now i result.text result.next }
{
    match content::undoubled_at(q, raw, i) {
        Some((b, next)) => Unescaped::byte(b, next),
        None => Unescaped::end_of(raw),
    }
}

fn string_at(raw: &[u8], i: usize) -> Unescaped
    requires { i < length raw.now }
    ensures { Part Escaped raw.now i result.text result.next }
{
    match raw[i] {
        b'"' => Unescaped::end_of(raw),
        b'\\' => escape::unescape_at(raw, i),
        b => Unescaped::byte(b, i + 1),
    }
}

// The unit at i: a byte where nothing is encoded, and in a string a character where an escape names one. At the end of the content there
// is none.
pub fn unit_at(c: Spelling, raw: &[u8], i: usize) -> Unescaped
    requires { i < length raw.now }
    ensures { Part c raw.now i result.text result.next }
{
    match c {
        Spelling::Nothing | Spelling::AsItStands => Unescaped::byte(raw[i], i + 1),
        Spelling::Doubled(q) => doubled_at(q, raw, i),
        Spelling::Escaped => string_at(raw, i),
    }
}
