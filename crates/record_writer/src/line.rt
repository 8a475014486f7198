// A record's text in a target, by the fast path for verbatim cells (clean.rt) or else cell by cell (record.rt), and the text with its
// ending. In: the cells as spans with their kinds, whether the record is a header, and whether its cells are verbatim (`clean`). Out: the
// text in the buffer, or only its length. The definition is `record_text` of model's specs/rules/Text.antt; specs/CleanRecord.antt says
// what `clean` means.
ghost use Rattle.std.specs.Prelude.{◌≡◌, true, false, ◌++◌};
ghost use Rattle.model.specs.rules.Dialect.{into};
ghost use Rattle.model.specs.rules.Text.{record_text, ending};
ghost use Rattle.model.specs.rules.Records.{uncarried_from};
ghost use Rattle.buffer.specs.Writes.{Room, WrittenAt};
ghost use Rattle.cell_decoder.specs.declared.source.Source.TheVariants.{File};
ghost use Rattle.cell_decoder.specs.Sources.{cells_in, Cells};
ghost use Rattle.cell_fast.specs.Ends.{CleanIn};
ghost use Rattle.record_writer.specs.CleanRecord.{CleanRecord};

use crate::clean::{plus, quoted};
use crate::record::RecordText;
use crate::{quotes, record};
use cell_decoder::source::Source;
use model::Dialect;

// The text at a place of the buffer, or only its length from there, without the record's ending.
pub fn write_text(
    src: Source,
    t: Dialect,
    s: &[u8],
    starts: &[usize],
    ends: &[usize],
    kinds: &[u8],
    header: bool,
    clean: bool,
    out: &mut [u8],
    at: usize,
    write: bool,
) -> RecordText
    requires cells { Cells src s.now starts.now ends.now kinds.now }
    requires clean_record { clean ≡ true → CleanRecord s.now starts.now ends.now src header }
    requires room { Room write at (record_text (into t) header (cells_in src s.now starts.now ends.now kinds.now)) out.old }
    ensures written_at { WrittenAt write out.old at
        (record_text (into t) header (cells_in src s.now starts.now ends.now kinds.now))
        out.new result.end }
    ensures carries_value { result.carries ≡ uncarried_from t 1 (cells_in src s.now starts.now ends.now kinds.now) }
{
    if clean {
        if quotes::quotes_all(t) {
            let end = quoted::write_quoted(s, starts, ends, out, at, write);
            return RecordText {
                end,
                carries: Ok(()),
            };
        }
        if cell_lexer::quote_of(t) == b'"' {
            let p = cell_lexer::delimiter_of(t);
            let end = plus::write_csv_plus(s, starts, ends, p, out, at, write);
            return RecordText {
                end,
                carries: Ok(()),
            };
        }
    }
    record::write_record(src, t, s, starts, ends, kinds, header, out, at, write)
}

// The text with the record's ending, at a place of the buffer.
pub fn write_line(
    src: Source,
    t: Dialect,
    s: &[u8],
    starts: &[usize],
    ends: &[usize],
    kinds: &[u8],
    header: bool,
    clean: bool,
    out: &mut [u8],
    at: usize,
) -> usize
    requires cells { Cells src s.now starts.now ends.now kinds.now }
    requires clean_record { clean ≡ true → CleanRecord s.now starts.now ends.now src header }
    requires room { Room true at (record_text (into t) header (cells_in src s.now starts.now ends.now kinds.now) ++ ending t) out.old }
    ensures { WrittenAt true out.old at
        (record_text (into t) header (cells_in src s.now starts.now ends.now kinds.now) ++ ending t)
        out.new result }
{
    let text = write_text(src, t, s, starts, ends, kinds, header, clean, out, at, true);
    record::write_ending(t, out, text.end, true)
}

// The text of a data record of a file with its ending, at a place of the buffer.
pub fn write_data(
    d: Dialect,
    t: Dialect,
    s: &[u8],
    starts: &[usize],
    ends: &[usize],
    kinds: &[u8],
    clean: bool,
    out: &mut [u8],
    at: usize,
) -> usize
    requires cells { Cells (File d) s.now starts.now ends.now kinds.now }
    requires clean_in { clean ≡ true → CleanIn d s.now starts.now ends.now }
    requires room { Room true at (record_text (into t) false (cells_in (File d) s.now starts.now ends.now kinds.now) ++ ending t) out.old }
    ensures { WrittenAt true out.old at (record_text (into t) false (cells_in (File d) s.now starts.now ends.now kinds.now) ++ ending t) out.new result }
{
    write_line(
        Source::File(d),
        t,
        s,
        starts,
        ends,
        kinds,
        false,
        clean,
        out,
        at,
    )
}
