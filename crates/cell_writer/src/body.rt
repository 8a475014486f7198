// The content of a cell written between the quotes of a target, from any source: one loop for all pairs of dialects, over runs and what
// stops them. The raw cell and its encoding go in; the end of the text comes out, and whether the content holds a lone surrogate. The
// definition is `body_text` of specs/Units.antt; what stops a run is `Stops` of specs/Bodies.antt, so a new encoding changes that and not
// the loop.
ghost use Rattle.std.specs.Prelude.{◌≡◌, ◌<◌, length};
ghost use Rattle.model.specs.rules.Utf8.{holds_lone};
ghost use Rattle.buffer.specs.Writes.{Room, WrittenAt};
ghost use Rattle.cell_decoder.specs.FirstByte.{content_in};
ghost use Rattle.cell_decoder.specs.declared.first_byte.Spelling.TheVariants.{AsItStands};
ghost use Rattle.cell_writer.specs.Units.{body_text, begins_lone, paired};
ghost use Rattle.cell_writer.specs.Contents.{Decoded};
ghost use Rattle.cell_writer.specs.Bodies.{Stops};

use crate::unit::Encoded;
use crate::{escape, unit};
use buffer::short::Short;
use cell_decoder::first_byte::Spelling;
use model::Dialect;

// ---- what stops a run

// The text of what stops a run, where the content continues, and whether it begins with a lone surrogate.
#[derive(Drop)]
struct Stop {
    text: Short<6>,
    next: usize,
    lone: bool,
}

// Whether a content begins with the first two bytes of a lone surrogate.
fn is_paired(content: &[u8]) -> bool
    ensures { result ≡ paired content.now }
{
    matches!(content, [0xED, 0xA0..=0xFF, ..])
}

// Whether a content begins with a whole lone surrogate.
fn begins_lone(content: &[u8]) -> bool
    ensures { result ≡ begins_lone content.now }
{
    matches!(content, [0xED, 0xA0..=0xFF, _, ..])
}

// In a content that is not encoded, and may be any bytes.
fn content_stop(t: Dialect, content: &[u8], i: usize) -> Stop
    requires { i < length content.now }
    ensures { Stops AsItStands t content.now i result.text result.next result.lone }
{
    let rest = &content[i..];
    if escape::is_csvj(t) && begins_lone(rest) {
        return Stop {
            text: escape::lone(rest[1], rest[2]),
            next: i + 3,
            lone: true,
        };
    }
    Stop {
        text: escape::byte_text(t, rest[0]),
        next: i + 1,
        lone: is_paired(rest),
    }
}

// In a cell that has to be decoded.
fn unit_stop(e: Encoded, t: Dialect, i: usize) -> Stop
    requires i_in_bounds { i < length e.raw.now }
    requires decoded { Decoded e.spelling e.raw.now }
    ensures { Stops e.entry.spelling t e.entry.raw.now i result.text result.next result.lone }
{
    let u = unit::unit_at(e.spelling, e.raw, i);
    if u.text.is_empty() {
        return Stop {
            text: Short::new([0; 6], 0),
            next: u.next,
            lone: false,
        };
    }
    Stop {
        text: escape::unit_text(t, u.text.as_slice()),
        next: u.next,
        lone: escape::is_lone(u.text.as_slice()),
    }
}

fn stop_text(e: Encoded, t: Dialect, i: usize) -> Stop
    requires { i < length e.raw.now }
    ensures { Stops e.entry.spelling t e.entry.raw.now i result.text result.next result.lone }
{
    match e.spelling {
        Spelling::Nothing | Spelling::AsItStands => content_stop(t, e.raw, i),
        Spelling::Doubled(_) | Spelling::Escaped => unit_stop(e, t, i),
    }
}

// ---- a content

#[derive(Clone, Copy)]
pub struct Body {
    // The end of the text.
    pub end: usize,
    // Whether the content holds a lone surrogate.
    pub lone: bool,
}

// The content of the cell at an offset of the buffer, or only measured from there.
pub fn write_body(e: Encoded, t: Dialect, out: &mut [u8], at: usize, write: bool) -> Body
    requires { Room write at (body_text t (content_in e.spelling e.raw.now)) out.old }
    ensures written_at { WrittenAt write out.old at (body_text t (content_in e.entry.spelling e.entry.raw.now)) out.new result.end }
    ensures lone_value { result.lone ≡ holds_lone (content_in e.entry.spelling e.entry.raw.now) }
{
    let p = cell_lexer::quote_of(t);
    let q = unit::quote_in(e.spelling);
    let raw = e.raw;
    let mut i = unit::content_start(e.spelling, raw);
    let mut o = at;
    let mut lone = false;
    // No `for`: a run and a stop have any length.
    while i < raw.len() {
        let j = crate::plain::plain_run(raw, i, p, q, q);
        o = buffer::emit(out, o, &raw[i..j], write);
        if raw.len() <= j {
            return Body { end: o, lone };
        }
        let x = stop_text(e, t, j);
        o = buffer::emit(out, o, x.text.as_slice(), write);
        i = x.next;
        lone |= x.lone;
    }
    Body { end: o, lone }
}
