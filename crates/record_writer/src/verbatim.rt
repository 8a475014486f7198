// Texts that are copied into the target byte for byte, as most cells of most files are: one test of their bytes, eight to a step, and no
// decoding. For short cells this spares a fifth of the instructions of a conversion. Any other cell falls back to cell_writer. The
// definition of the test is `Looks` of specs/Verbatim.antt.
ghost use Rattle.std.specs.Prelude.{◌≡◌, true, false};
ghost use Rattle.model.specs.rules.Dialect.{is_csvj};
ghost use Rattle.model.specs.rules.Text.{is_text, cell_text};
ghost use Rattle.model.specs.rules.Utf8.{holds_lone};
ghost use Rattle.buffer.specs.Writes.{Room, WrittenAt};
ghost use Rattle.cell_decoder.specs.Sources.{kind_from, content_by, Encoded};
ghost use Rattle.cell_writer.specs.Cells.{value_of};
ghost use Rattle.record_writer.specs.Verbatim.{Direct, Looks};

use crate::{quotes, words};
use cell_decoder::source;
use cell_decoder::source::Source;
use cell_writer::body::Body;
use cell_writer::cell;
use model::Dialect;

// ---- what a source and a target allow

// Whether both have the quotation mark for a quote, and the target quotes every text. Tested once for a record.
pub fn is_direct(src: Source, t: Dialect) -> bool
    ensures { result ≡ true → Direct src t }
{
    match src {
        Source::File(d) => cell_lexer::quote_of(d) == b'"' && quotes::quotes_all(t),
        Source::Contents => false,
    }
}

// ---- what a cell is

// The part of a cell that is copied between two quotes, from the first place up to the second; none if the cell must be decoded.
// The kind's number is tested as it is: to name the kind first costs 2% of the instructions.
fn verbatim_span(direct: bool, number: u8, raw: &[u8]) -> Option<(usize, usize)>
    ensures { Looks direct (kind_from number) raw.now result }
{
    if !direct || number != 1 {
        return None;
    }
    let from = quotes::quotes_around(raw);
    let upto = raw.len() - from;
    if words::all_words(raw, from, upto, |w| swar::unplain_text(w)) {
        return Some((from, upto));
    }
    None
}

// ---- its text

// Writes a cell at o, or only measures it from there, as `cell::write_cell` does.
pub fn write_verbatim(
    src: Source,
    t: Dialect,
    direct: bool,
    number: u8,
    raw: &[u8],
    only: bool,
    first: bool,
    out: &mut [u8],
    o: usize,
    write: bool,
) -> Body
    requires encoded { Encoded src (kind_from number) raw.now }
    requires direct { direct ≡ true → Direct src t }
    requires room { Room write o (cell_text t only first (value_of src (kind_from number) raw.now)) out.old }
    ensures written_at { WrittenAt write out.old o (cell_text t only first (value_of src (kind_from number) raw.now)) out.new result.end }
    ensures lone_value { is_text (kind_from number) ≡ true → is_csvj t ≡ false → result.lone ≡ holds_lone (content_by src raw.now) }
{
    match verbatim_span(direct, number, raw) {
        Some((from, upto)) => {
            let end = quotes::write_marked(true, &raw[from..upto], out, o, write);
            Body { end, lone: false }
        }
        None => {
            let kind = source::kind_of_number(number);
            cell::write_cell(src, t, kind, raw, only, first, out, o, write)
        }
    }
}
