// The quotation marks around the content of a cell: which a raw cell has, which targets write, and how they are written. The definitions
// are `Quotes` and `quotes_all` of specs/Verbatim.antt, and `marked` of specs/CleanCellText.antt.
ghost use Rattle.std.specs.Prelude.{◌≡◌};
ghost use Rattle.buffer.specs.Writes.{Room, WrittenAt};
ghost use Rattle.record_writer.specs.CleanCellText.{quote_if, marked};
ghost use Rattle.record_writer.specs.Verbatim.{Quotes, quotes_all};

use model::Dialect;

// Whether a target quotes every text.
pub fn quotes_all(t: Dialect) -> bool
    ensures { result ≡ quotes_all t }
{
    match t {
        Dialect::Csvj | Dialect::Tdif => true,
        Dialect::CsvPlus(_) => false,
    }
}

// How many precede it, and as many follow it: one where the cell begins and ends with one. A number, since callers slice by it.
pub fn quotes_around(raw: &[u8]) -> usize
    ensures { Quotes raw.now result }
{
    if 2 <= raw.len() && raw[0] == b'"' && raw[raw.len() - 1] == b'"' {
        1
    } else {
        0
    }
}

// One of the two quotation marks of a text that has them.
pub fn write_quote(quoted: bool, out: &mut [u8], o: usize, write: bool) -> usize
    requires { Room write o (quote_if quoted) out.old }
    ensures { WrittenAt write out.old o (quote_if quoted) out.new result }
{
    if quoted {
        return buffer::emit_byte(out, o, b'"', write);
    }
    o
}

// A text, in quotation marks or not.
pub fn write_marked(quoted: bool, bs: &[u8], out: &mut [u8], o: usize, write: bool) -> usize
    requires { Room write o (marked quoted bs.now) out.old }
    ensures { WrittenAt write out.old o (marked quoted bs.now) out.new result }
{
    let from = write_quote(quoted, out, o, write);
    let end = buffer::emit(out, from, bs, write);
    write_quote(quoted, out, end, write)
}
