// The content of a cell, measured or written into a lent room: the encoding and the raw bytes go in, the length or the content comes out.
// The definition is `content_in` of specs/FirstByte.antt (`content_of` of model's specs/rules/Decode.antt). The loops are proved by
// `Writing` of buffer; a new encoding is a pair of functions and an arm in `length_in` and `write_in`.
ghost use Rattle.std.specs.Prelude.{◌≡◌, ◌≤◌, false, length, drop};
ghost use Rattle.model.specs.rules.Base.{over};
ghost use Rattle.model.specs.rules.Decode.{undouble};
ghost use Rattle.cell_decoder.specs.DoubledQuotes.{UndoubledAt, RunBefore};
ghost use Rattle.cell_decoder.specs.Strings.{string_from};
ghost use Rattle.cell_decoder.specs.FirstByte.{content_in};

use crate::escape;
use crate::first_byte::Spelling;

// ---- text with quotes doubled

// The byte of the text at i, and where the text continues; none at its end.
pub fn undoubled_at(q: u8, raw: &[u8], i: usize) -> Option<(u8, usize)>
    ensures { UndoubledAt q raw.now i result }
{
    if raw.len() <= i {
        return None;
    }
    let b = raw[i];
    if b != q {
        return Some((b, i + 1));
    }
    if raw.len() - i < 2 || raw[i + 1] != q {
        return None;
    }
    Some((b, i + 2))
}

// The end of the bytes before the next quote from `at` on, as far as whole words show them.
fn before_quote(q: u8, raw: &[u8], at: usize) -> usize
    ensures { RunBefore q raw.now at result }
{
    let mut i = at;
    // A `while`: a step takes eight bytes.
    while i < raw.len() && 8 <= raw.len() - i {
        let quotes = swar::other_than(swar::word(raw, i), q) ^ 0x8080808080808080;
        if quotes != 0 {
            return i + swar::before_flag(quotes);
        }
        i += 8;
    }
    i
}

// The length of the text after an opening quote. The words before the first quote after it are counted at once; from there on a byte at
// a time, since a word for each short run between quotes takes half as much time again.
fn undoubled_length(q: u8, raw: &[u8]) -> usize
    ensures { result ≡ length (undouble q false (drop 1 raw.now)) }
{
    let mut i = before_quote(q, raw, 1);
    let mut n = i - 1;
    while let Some((_, next)) = undoubled_at(q, raw, i) {
        n += 1;
        i = next;
    }
    n
}

// The text after an opening quote, and its length.
fn write_undoubled(q: u8, raw: &[u8], out: &mut [u8]) -> usize
    requires { length (undouble q false (drop 1 raw.now)) ≤ length out.old }
    ensures size { result ≡ length (undouble q false (drop 1 raw.now)) }
    ensures text { out.new ≡ over (undouble q false (drop 1 raw.now)) out.old }
{
    let mut i = 1;
    let mut o = 0;
    while let Some((b, next)) = undoubled_at(q, raw, i) {
        out[o] = b;
        o += 1;
        i = next;
    }
    o
}

// ---- strings of CSVJ: two loops, since a byte that is no escape is counted or stored at once and is no text of its own

// The length of the string after an opening quote.
fn string_length(raw: &[u8]) -> usize
    ensures { result ≡ length (string_from raw.now 1) }
{
    let mut i = 1;
    let mut n: usize = 0;
    while i < raw.len() {
        let b = raw[i];
        if b == b'"' {
            return n;
        }
        if b == b'\\' {
            let p = escape::unescape_at(raw, i);
            n += p.text.as_slice().len();
            i = p.next;
        } else {
            n += 1;
            i += 1;
        }
    }
    n
}

// The string after an opening quote, and its length.
fn write_string(raw: &[u8], out: &mut [u8]) -> usize
    requires { length (string_from raw.now 1) ≤ length out.old }
    ensures size { result ≡ length (string_from raw.now 1) }
    ensures text { out.new ≡ over (string_from raw.now 1) out.old }
{
    let mut i = 1;
    let mut o = 0;
    while i < raw.len() {
        let b = raw[i];
        if b == b'"' {
            return o;
        }
        if b == b'\\' {
            let p = escape::unescape_at(raw, i);
            o = buffer::copy(out, o, p.text.as_slice());
            i = p.next;
        } else {
            out[o] = b;
            o += 1;
            i += 1;
        }
    }
    o
}

// ---- content in any encoding

// The length of content in this encoding.
pub fn length_in(s: Spelling, raw: &[u8]) -> usize
    ensures { result ≡ length (content_in s raw.now) }
{
    match s {
        Spelling::Nothing => 0,
        Spelling::AsItStands => raw.len(),
        Spelling::Doubled(q) => undoubled_length(q, raw),
        Spelling::Escaped => string_length(raw),
    }
}

// Content in this encoding, at the beginning of out, and its length.
pub fn write_in(s: Spelling, raw: &[u8], out: &mut [u8]) -> usize
    requires { length (content_in s raw.now) ≤ length out.old }
    ensures size { result ≡ length (content_in s raw.now) }
    ensures text { out.new ≡ over (content_in s raw.now) out.old }
{
    match s {
        Spelling::Nothing => 0,
        Spelling::AsItStands => buffer::copy(out, 0, raw),
        Spelling::Doubled(q) => write_undoubled(q, raw, out),
        Spelling::Escaped => write_string(raw, out),
    }
}
