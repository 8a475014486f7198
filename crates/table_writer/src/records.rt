// The records of a table, in two loops: checked and measured, then written. In: the lists of a table's cells. Out: the length of its text
// or the first fault, then the text in the room. The definitions are `rows_fault` and `table_text` of model's specs/rules. A rule that
// changes for a record changes a law of proofs/Rows.antt, and no loop.
ghost use Rattle.std.specs.Result.{result_and};
ghost use Rattle.std.specs.Prelude.{◌≡◌, true, ◌++◌, ◌*◌, ◌≤◌, length};
ghost use Rattle.std.specs.Prelude.{Ok};
ghost use Rattle.model.specs.rules.Base.{over};
ghost use Rattle.model.specs.rules.Dialect.{into};
ghost use Rattle.model.specs.rules.Text.{record_text, table_text, ending};
ghost use Rattle.model.specs.rules.Report.{MAXFILE};
ghost use Rattle.buffer.specs.Writes.{Room, WrittenAt};
ghost use Rattle.cell_decoder.specs.declared.source.Source.TheVariants.{Contents};
ghost use Rattle.cell_decoder.specs.Sources.{cells_in, Cells};
ghost use Rattle.table_writer.specs.Rows.{rows_given, header_if, row_check, measured_as};

use cell_decoder::source::Source;
use model::{Dialect, Fault, Report};
use record_writer::line;

// ---- measuring

// The checks of a header, if the record is one.
fn header_fault(
    t: Dialect,
    content: &[u8],
    starts: &[usize],
    ends: &[usize],
    kinds: &[u8],
    header: bool,
) -> Result<(), Fault>
    requires { Cells Contents content.now starts.now ends.now kinds.now }
    ensures { result ≡ header_if t header
        (cells_in Contents content.now starts.now ends.now kinds.now) }
{
    if !header {
        return Ok(());
    }
    record_check::header(Source::Contents, t, content, starts, ends, kinds)
}

// One record after `written` bytes of text: the checks of a header if it is one, and then the target's.
fn check_record(
    t: Dialect,
    content: &[u8],
    starts: &[usize],
    ends: &[usize],
    kinds: &[u8],
    header: bool,
    written: usize,
) -> Result<usize, Fault>
    requires cells { Cells Contents content.now starts.now ends.now kinds.now }
    requires written_bound { written ≤ MAXFILE }
    ensures { result ≡ result_and
        (row_check t header written (cells_in Contents content.now starts.now ends.now kinds.now))
        (Ok (length (record_text (into t) header (cells_in Contents content.now starts.now ends.now kinds.now) ++ ending t))) }
{
    header_fault(t, content, starts, ends, kinds, header)?;
    record_target::check_target(
        Source::Contents,
        t,
        content,
        starts,
        ends,
        kinds,
        header,
        false,
        written,
    )
}

// The records of a table.
pub fn measure(
    t: Dialect,
    content: &[u8],
    starts: &[usize],
    ends: &[usize],
    kinds: &[u8],
    columns: usize,
    records: usize,
) -> Result<usize, Report>
    requires cells { Cells Contents content.now starts.now ends.now kinds.now }
    requires starts_len { length starts.now ≡ columns * records }
    ensures { result ≡ measured_as (into t)
        (rows_given content.now starts.now ends.now kinds.now columns records) }
{
    // The place of the record's first cell. A record may have no columns, so the lists have no chunks.
    let mut at = 0;
    let mut size = 0;
    for n in 0..records {
        let next = at + columns;
        match check_record(
            t,
            content,
            &starts[at..next],
            &ends[at..next],
            &kinds[at..next],
            n == 0,
            size,
        ) {
            Ok(length) => {
                size += length;
            }
            Err(e) => {
                return Err(codes::record_report(e, n + 1, 0));
            }
        }
        at = next;
    }
    Ok(size)
}

// ---- writing

// Writes the records of a table into a room that is long enough for their text.
pub fn write_records(
    t: Dialect,
    content: &[u8],
    starts: &[usize],
    ends: &[usize],
    kinds: &[u8],
    columns: usize,
    records: usize,
    room: &mut [u8],
)
    requires cells { Cells Contents content.now starts.now ends.now kinds.now }
    requires starts_len { length starts.now ≡ columns * records }
    requires records_in_bounds { length (table_text (into t) (rows_given content.now starts.now ends.now kinds.now columns records)) ≤ length room.old }
    ensures { room.new ≡ over (table_text (into t)
        (rows_given content.now starts.now ends.now kinds.now columns records))
        room.old }
{
    // The place of the record's first cell. A record may have no columns, so the lists have no chunks.
    let mut at = 0;
    let mut o = 0;
    for n in 0..records {
        let next = at + columns;
        o = line::write_line(
            Source::Contents,
            t,
            content,
            &starts[at..next],
            &ends[at..next],
            &kinds[at..next],
            n == 0,
            false,
            room,
            o,
        );
        at = next;
    }
}
