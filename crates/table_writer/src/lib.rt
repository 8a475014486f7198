// The canonical writer (§13.1). In: a table as contents, with the spans and kinds of its cells. Out: its text in the room, or a refusal
// that leaves the room unchanged. The lists are checked first (check.rt), then every record is checked and measured, and the text is
// written only where it has room (records.rt).
//
// The lists of cells are parameters one by one: the C interface lends a cell's span and kind as three lists.
//
// The definition is `writer` of model's specs/rules/Api.antt. proofs/Answers.antt has the laws that a new answer would change.
#![tactic(auto)]

ghost use Rattle.std.specs.Prelude.{◌≡◌, ◌*◌, length};
ghost use Rattle.model.specs.rules.Base.{over};
ghost use Rattle.model.specs.rules.Dialect.{into};
ghost use Rattle.model.specs.rules.Text.{table_text};
ghost use Rattle.model.specs.rules.Api.{fitted, writer, writer_leaves};
ghost use Rattle.codes.specs.Named.{text_answer};
ghost use Rattle.cell_decoder.specs.declared.source.Source.TheVariants.{Contents};
ghost use Rattle.cell_decoder.specs.Sources.{Cells};
ghost use Rattle.table_writer.specs.TableParts.{given};
ghost use Rattle.table_writer.specs.Rows.{rows_given};
ghost use Rattle.table_writer.specs.Answered.{table_written, writer_in};

use codes::TextAnswer;
use model::Dialect;

pub mod check;
pub mod content;
pub mod records;

// Writes a table whose text has length `size`: error 10 where the room is shorter.
fn write_if_fits(
    t: Dialect,
    content: &[u8],
    starts: &[usize],
    ends: &[usize],
    kinds: &[u8],
    columns: usize,
    records: usize,
    size: usize,
    room: &mut [u8],
) -> TextAnswer
    requires cells { Cells Contents content.now starts.now ends.now kinds.now }
    requires starts_len { length starts.now ≡ columns * records }
    requires size_value { size ≡ length (table_text (into t) (rows_given content.now starts.now ends.now kinds.now columns records)) }
    ensures value { result ≡ text_answer (fitted (length room.old)
        (table_text (into t) (rows_given content.now starts.now ends.now kinds.now columns records))) }
    ensures room_after { room.new ≡ over (fitted (length room.old)
        (table_text (into t) (rows_given content.now starts.now ends.now kinds.now columns records))).text
        room.old }
{
    if room.len() < size {
        return codes::refusal(codes::call_report(codes::NO_ROOM));
    }
    crate::records::write_records(t, content, starts, ends, kinds, columns, records, room);
    TextAnswer {
        report: codes::call_report(codes::ACCEPTED),
        length: size,
    }
}

// A table: the first fault of its records, or its text.
fn write_table(
    t: Dialect,
    content: &[u8],
    starts: &[usize],
    ends: &[usize],
    kinds: &[u8],
    columns: usize,
    records: usize,
    room: &mut [u8],
) -> TextAnswer
    requires cells { Cells Contents content.now starts.now ends.now kinds.now }
    requires starts_len { length starts.now ≡ columns * records }
    ensures value { result ≡ text_answer (table_written t
        (rows_given content.now starts.now ends.now kinds.now columns records)
        (length room.old)) }
    ensures room_after { room.new ≡ over (table_written t
        (rows_given content.now starts.now ends.now kinds.now columns records)
        (length room.old)).text room.old }
{
    match crate::records::measure(t, content, starts, ends, kinds, columns, records) {
        Ok(length) => write_if_fits(
            t, content, starts, ends, kinds, columns, records, length, room,
        ),
        Err(e) => codes::refusal(e),
    }
}

// The lists in this dialect: error 12 where they are no table.
fn write_in(
    t: Dialect,
    content: &[u8],
    starts: &[usize],
    ends: &[usize],
    kinds: &[u8],
    columns: usize,
    records: usize,
    room: &mut [u8],
) -> TextAnswer
    ensures value { result ≡ text_answer (writer_in t
        (given content.now starts.now ends.now kinds.now columns records)
        (length room.old)) }
    ensures room_after { room.new ≡ over (writer_in t
        (given content.now starts.now ends.now kinds.now columns records)
        (length room.old)).text room.old }
{
    if !crate::check::is_table(content, starts, ends, kinds, columns, records) {
        return codes::refusal(codes::call_report(codes::NOT_A_TABLE));
    }
    write_table(t, content, starts, ends, kinds, columns, records, room)
}

// The writer: error 11 for a number that is no dialect's. `records` counts the header. It ends on every input, and its answer and its room
// are determined for all of them (§13.1 §19.1 §19.5 §19.6).
pub fn write(
    dialect: u32,
    content: &[u8],
    starts: &[usize],
    ends: &[usize],
    kinds: &[u8],
    columns: usize,
    records: usize,
    room: &mut [u8],
) -> TextAnswer
    ensures answer { result ≡ text_answer (writer dialect
        (given content.now starts.now ends.now kinds.now columns records)
        (length room.old)) }
    ensures leaves { room.new ≡ writer_leaves dialect
        (given content.now starts.now ends.now kinds.now columns records)
        room.old }
{
    match Dialect::try_from(dialect) {
        Ok(t) => { write_in(t, content, starts, ends, kinds, columns, records, room) }
        Err(_) => { codes::refusal(codes::call_report(codes::WRONG_CALL)) }
    }
}
