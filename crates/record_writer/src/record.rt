// The text of a record cell by cell, and the first cell that the target can't represent. In: the spans of the cells in s, with their kinds.
// Out: the text in the buffer, or only its length. The definitions are `record_text` of model's specs/rules/Text.antt and `uncarried_from` of
// its specs/rules/Records.antt.
ghost use Rattle.std.specs.Prelude.{◌≡◌, true, false, ◌+◌};
ghost use Rattle.model.specs.rules.Base.{Bytes};
ghost use Rattle.model.specs.declared.Dialect.TheVariants.{Tdif};
ghost use Rattle.model.specs.rules.Dialect.{is_csvj, into};
ghost use Rattle.model.specs.rules.Text.{is_text, ending, record_text};
ghost use Rattle.model.specs.rules.Utf8.{holds_lone};
ghost use Rattle.model.specs.rules.Records.{◌or_else◌, has_kind, uncarried_from};
ghost use Rattle.buffer.specs.Writes.{Room, WrittenAt};
ghost use Rattle.cell_decoder.specs.Sources.{kind_from, content_by, cells_in, Encoded, Cells};
ghost use Rattle.cell_writer.specs.Cells.{value_of};
ghost use Rattle.record_writer.specs.Columns.{is_first, column_text, uncarried_cell};
ghost use Rattle.record_writer.specs.Verbatim.{Direct};

use crate::clean::quotes;
use crate::verbatim;
use cell_decoder::source;
use cell_decoder::source::Source;
use cell_writer::body::Body;
use cell_writer::escape;
use model::{Dialect, Fault, Kind};

#[derive(Clone, Copy)]
pub struct RecordText {
    // Where the text ends, without the record's ending.
    pub end: usize,
    // The check result for its cells: the first that the target can't represent.
    pub carries: Result<(), Fault>,
}

// ---- what the target can represent

fn tdif_has_kind(k: Kind) -> bool
    ensures { result ≡ has_kind Tdif k }
{
    match k {
        Kind::Text | Kind::Null => true,
        Kind::Number | Kind::True | Kind::False => false,
    }
}

// Whether the dialect has cells of this kind.
fn has_kind(t: Dialect, k: Kind) -> bool
    ensures { result ≡ has_kind t k }
{
    match t {
        Dialect::Csvj => true,
        Dialect::Tdif => tdif_has_kind(k),
        Dialect::CsvPlus(_) => source::is_text(k),
    }
}

// The check result so far, or else that of the cell in this column, in whose content a lone surrogate was found or not.
fn with_cell(
    carries: Result<(), Fault>,
    t: Dialect,
    number: u8,
    lone: bool,
    column: usize,
) -> Result<(), Fault>
    ensures { (content : Bytes) → (is_text (kind_from number) ≡ true → is_csvj t ≡ false → lone ≡ holds_lone content)
        → result ≡ (carries or_else uncarried_cell t column (kind_from number) content) }
{
    carries?;
    if escape::is_csvj(t) {
        return Ok(());
    }
    let kind = source::kind_of_number(number);
    if !has_kind(t, kind) {
        return Err(Fault::LacksKind { column });
    }
    if lone && source::is_text(kind) {
        return Err(Fault::LoneSurrogate { column });
    }
    Ok(())
}

// ---- columns

fn is_first(n: usize, header: bool) -> bool
    ensures { result ≡ is_first n header }
{
    n == 0 && header
}

// The cell at place n, with a delimiter before it unless it is the first. Here a cell passes from reading to writing (`carried` of model's
// specs/rules/Text.antt): it is written with the kind and content with which it was read.
fn write_column(
    src: Source,
    t: Dialect,
    direct: bool,
    number: u8,
    raw: &[u8],
    n: usize,
    only: bool,
    header: bool,
    out: &mut [u8],
    at: usize,
    write: bool,
) -> Body
    requires encoded { Encoded src (kind_from number) raw.now }
    requires direct { direct ≡ true → Direct src t }
    requires room { Room write at (column_text t n only header (value_of src (kind_from number) raw.now)) out.old }
    ensures written_at { WrittenAt write out.old at (column_text t n only header (value_of src (kind_from number) raw.now)) out.new result.end }
    ensures lone_value { is_text (kind_from number) ≡ true → is_csvj t ≡ false → result.lone ≡ holds_lone (content_by src raw.now) }
{
    let from = quotes::write_delimiter(cell_lexer::delimiter_of(t), n, out, at, write);
    verbatim::write_verbatim(
        src,
        t,
        direct,
        number,
        raw,
        only,
        is_first(n, header),
        out,
        from,
        write,
    )
}

// ---- records

// Writes the record at a place of the buffer, or only measures it from there.
pub fn write_record(
    src: Source,
    t: Dialect,
    s: &[u8],
    starts: &[usize],
    ends: &[usize],
    kinds: &[u8],
    header: bool,
    out: &mut [u8],
    at: usize,
    write: bool,
) -> RecordText
    requires cells { Cells src s.now starts.now ends.now kinds.now }
    requires room { Room write at (record_text (into t) header (cells_in src s.now starts.now ends.now kinds.now)) out.old }
    ensures written_at { WrittenAt write out.old at
        (record_text (into t) header (cells_in src s.now starts.now ends.now kinds.now))
        out.new result.end }
    ensures carries_value { result.carries ≡ uncarried_from t 1 (cells_in src s.now starts.now ends.now kinds.now) }
{
    let only = starts.len() == 1;
    let direct = verbatim::is_direct(src, t);
    let mut o = at;
    let mut carries: Result<(), Fault> = Ok(());
    // By place: only the first cell has no delimiter before it, and a fault names its column.
    for n in 0..starts.len() {
        let from = starts[n];
        let upto = ends[n];
        let number = kinds[n];
        let x = write_column(
            src,
            t,
            direct,
            number,
            &s[from..upto],
            n,
            only,
            header,
            out,
            o,
            write,
        );
        o = x.end;
        carries = with_cell(carries, t, number, x.lone, n + 1);
    }
    RecordText { end: o, carries }
}

// A record's ending.
pub fn write_ending(t: Dialect, out: &mut [u8], o: usize, write: bool) -> usize
    requires { Room write o (ending t) out.old }
    ensures { WrittenAt write out.old o (ending t) out.new result }
{
    match t {
        Dialect::Csvj | Dialect::Tdif => buffer::emit_byte(out, o, b'\n', write),
        Dialect::CsvPlus(_) => buffer::emit(out, o, &[b'\r', b'\n'], write),
    }
}
