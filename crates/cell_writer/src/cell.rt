// The text of one cell, from its raw bytes in a file or from its content: source, target, kind and bytes go in; the end of the text comes
// out, and whether the content holds a lone surrogate. The definition is `cell_text` of model's specs/rules/Text.antt; specs/Cells.antt
// splits it by the written form.
ghost use Rattle.std.specs.Prelude.{◌≡◌, true, false};
ghost use Rattle.model.specs.declared.Dialect.TheVariants.{Csvj, Tdif};
ghost use Rattle.model.specs.rules.Dialect.{is_csvj};
ghost use Rattle.model.specs.rules.Utf8.{holds_lone};
ghost use Rattle.model.specs.rules.Text.{is_text, cell_text};
ghost use Rattle.buffer.specs.Writes.{Room, WrittenAt};
ghost use Rattle.cell_decoder.specs.FirstByte.{content_in};
ghost use Rattle.cell_decoder.specs.Sources as sources;
ghost use Rattle.cell_decoder.specs.Sources.{content_by};
ghost use Rattle.cell_writer.specs.Cells.{is_quoted, quote_by, text_cell, number_in, written_as, word_for, value_of};

use crate::body::Body;
use crate::unit::Encoded;
use crate::{body, special};
use cell_decoder::first_byte::Spelling;
use cell_decoder::source;
use cell_decoder::source::Source;
use model::{Dialect, Kind};

// ---- texts

fn is_quoted(e: Encoded, t: Dialect, only: bool, first: bool) -> bool
    ensures { result ≡ is_quoted t only first (content_in e.entry.spelling e.entry.raw.now) }
{
    match t {
        Dialect::Csvj | Dialect::Tdif => true,
        Dialect::CsvPlus(s) => special::is_quoted(s, e, only, first),
    }
}

// The opening or the closing quote of a text that has them.
fn write_quote(quoted: bool, t: Dialect, out: &mut [u8], o: usize, write: bool) -> usize
    requires { Room write o (quote_by t quoted) out.old }
    ensures { WrittenAt write out.old o (quote_by t quoted) out.new result }
{
    if quoted {
        return buffer::emit_byte(out, o, cell_lexer::quote_of(t), write);
    }
    o
}

fn write_text(
    e: Encoded,
    t: Dialect,
    only: bool,
    first: bool,
    out: &mut [u8],
    o: usize,
    write: bool,
) -> Body
    requires { Room write o (text_cell t only first (content_in e.spelling e.raw.now)) out.old }
    ensures written_at { WrittenAt write out.old o (text_cell t only first (content_in e.entry.spelling e.entry.raw.now)) out.new result.end }
    ensures lone_value { result.lone ≡ holds_lone (content_in e.entry.spelling e.entry.raw.now) }
{
    let quoted = is_quoted(e, t, only, first);
    let from = write_quote(quoted, t, out, o, write);
    let b = body::write_body(e, t, out, from, write);
    let end = write_quote(quoted, t, out, b.end, write);
    Body { end, lone: b.lone }
}

// ---- numbers

// A number, verbatim (§14.5). Bytes of that kind that do not begin like a number have no content.
fn write_number(c: Spelling, raw: &[u8], out: &mut [u8], o: usize, write: bool) -> usize
    requires { Room write o (number_in c raw.now) out.old }
    ensures { WrittenAt write out.old o (number_in c raw.now) out.new result }
{
    match c {
        Spelling::Nothing => o,
        _ => buffer::emit(out, o, raw, write),
    }
}

// ---- words

// Kept a call of its own, which is a look-up in a table. Inside `write_word` it was a jump to a copy for each word, mispredicted where words
// alternate at random.
#[inline(never)]
fn csvj_word(kind: Kind) -> &'static [u8]
    ensures { result.now ≡ word_for Csvj kind }
{
    match kind {
        Kind::Text | Kind::Number => b"",
        Kind::True => b"true",
        Kind::False => b"false",
        Kind::Null => b"null",
    }
}

fn word_for(t: Dialect, kind: Kind) -> &'static [u8]
    ensures { result.now ≡ word_for t kind }
{
    match t {
        Dialect::Csvj => csvj_word(kind),
        Dialect::Tdif => b"\\N",
        Dialect::CsvPlus(_) => b"",
    }
}

fn write_word(t: Dialect, kind: Kind, out: &mut [u8], o: usize, write: bool) -> usize
    requires { Room write o (word_for t kind) out.old }
    ensures { WrittenAt write out.old o (word_for t kind) out.new result }
{
    buffer::emit(out, o, word_for(t, kind), write)
}

// ---- cells

// How a target writes a cell of a kind.
#[derive(Clone, Copy)]
pub enum WrittenForm {
    AsText,
    // A number of CSVJ, verbatim.
    AsNumber,
    // A word of CSVJ, or TDIF's null.
    AsWord,
}

fn csvj_form(kind: Kind) -> WrittenForm
    ensures { result ≡ written_as Csvj kind }
{
    match kind {
        Kind::Text => WrittenForm::AsText,
        Kind::Number => WrittenForm::AsNumber,
        Kind::True | Kind::False | Kind::Null => WrittenForm::AsWord,
    }
}

fn tdif_form(kind: Kind) -> WrittenForm
    ensures { result ≡ written_as Tdif kind }
{
    match kind {
        Kind::Text => WrittenForm::AsText,
        _ => WrittenForm::AsWord,
    }
}

fn form_in(t: Dialect, kind: Kind) -> WrittenForm
    ensures { result ≡ written_as t kind }
{
    match t {
        Dialect::Csvj => csvj_form(kind),
        Dialect::Tdif => tdif_form(kind),
        Dialect::CsvPlus(_) => WrittenForm::AsText,
    }
}

// A cell at o, or only measured from there. `only`: its record has no other cell; `first`: it is the first of a header.
pub fn write_cell(
    src: Source,
    t: Dialect,
    kind: Kind,
    raw: &[u8],
    only: bool,
    first: bool,
    out: &mut [u8],
    o: usize,
    write: bool,
) -> Body
    requires encoded { sources.Encoded src kind raw.now }
    requires room { Room write o (cell_text t only first (value_of src kind raw.now)) out.old }
    ensures written_at { WrittenAt write out.old o (cell_text t only first (value_of src kind raw.now)) out.new result.end }
    ensures lone_value { is_text kind ≡ true → is_csvj t ≡ false → result.lone ≡ holds_lone (content_by src raw.now) }
{
    match form_in(t, kind) {
        WrittenForm::AsText => {
            let e = Encoded {
                spelling: source::spelling_in(src, raw),
                raw,
            };
            write_text(e, t, only, first, out, o, write)
        }
        WrittenForm::AsNumber => {
            let c = source::spelling_in(src, raw);
            Body {
                end: write_number(c, raw, out, o, write),
                lone: false,
            }
        }
        WrittenForm::AsWord => Body {
            end: write_word(t, kind, out, o, write),
            lone: false,
        },
    }
}
