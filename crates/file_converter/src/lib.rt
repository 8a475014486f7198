// The whole-file converter. In: the numbers of two dialects and a file, with room for the text. Out: the length of the file's canonical
// text in the second dialect, which is then in the room; or a refusal that leaves the room as it was. It runs the cursor twice over the
// file: the first pass checks and measures, the second writes, so that nothing is written before the whole file is known to be accepted
// and to have room. The second pass checks nothing for the target. The definition is `converter` of model's specs/rules/Api.antt; the
// invariants of the passes are in proofs/Passes.antt.
#![tactic(auto)]

ghost use Rattle.std.specs.Prelude.{◌≡◌, true, ◌++◌, length};
ghost use Rattle.model.specs.rules.Base.{over};
ghost use Rattle.model.specs.rules.Dialect.{into};
ghost use Rattle.model.specs.rules.Text.{record_text, ending};
ghost use Rattle.model.specs.rules.Api.{converter, converter_leaves};
ghost use Rattle.buffer.specs.Writes.{Room, WrittenAt};
ghost use Rattle.codes.specs.Named.{text_answer};
ghost use Rattle.cell_decoder.specs.declared.source.Source.TheVariants.{File};
ghost use Rattle.cell_decoder.specs.Sources.{cells_in, Cells};
ghost use Rattle.file_converter.specs.Converts.{answer_in, MeasureSound, Accepts};

use cell_decoder::source::Source;
use codes::{MAX_COLUMNS, TextAnswer};
use file_cursor::fast::FastNext;
use model::{Dialect, Report};
use record_writer::record;

// All records of a file, checked for the target and measured. This loop and that of `write_records` call the fast path and then the
// slow one themselves: as one function they share registers, and a conversion takes a tenth more time.
// Three lists, since the scanner fills those that `hk_read` lends, and C lends them side by side.
fn measure(d: Dialect, t: Dialect, file: &[u8]) -> Result<usize, Report>
    ensures { MeasureSound d t file.now result }
{
    let mut starts = [0usize; MAX_COLUMNS];
    let mut ends = [0usize; MAX_COLUMNS];
    let mut kinds = [0u8; MAX_COLUMNS];
    let mut cursor = file_cursor::at_start();
    loop {
        let state = cursor.state;
        match file_cursor::fast::next_data_record(
            d,
            Some(t),
            file,
            cursor.offset,
            state,
            cursor.done,
            cursor.columns,
            cursor.written,
            &mut starts,
            &mut ends,
            &mut kinds,
        ) {
            Some(
                FastNext {
                    cursor: v,
                    clean: _,
                },
            ) => {
                cursor = v;
            }
            None => match file_cursor::next_record(
                d,
                Some(t),
                file,
                cursor,
                &mut starts,
                &mut ends,
                &mut kinds,
            )? {
                Some(v) => {
                    cursor = v;
                }
                None => {
                    return Ok(cursor.written);
                }
            },
        }
    }
}

// One record with its ending, from the spans of its cells in the file.
fn write_record(
    d: Dialect,
    t: Dialect,
    file: &[u8],
    starts: &[usize],
    ends: &[usize],
    kinds: &[u8],
    header: bool,
    room: &mut [u8],
    at: usize,
) -> usize
    requires cells { Cells (File d) file.now starts.now ends.now kinds.now }
    requires room { Room true at (record_text (into t) header (cells_in (File d) file.now starts.now ends.now kinds.now) ++ ending t) room.old }
    ensures { WrittenAt true room.old at (record_text (into t) header (cells_in (File d) file.now starts.now ends.now kinds.now) ++ ending t) room.new result }
{
    let text = record::write_record(
        Source::File(d),
        t,
        file,
        starts,
        ends,
        kinds,
        header,
        room,
        at,
        true,
    );
    record::write_ending(t, room, text.end, true)
}

// All records of a file that was accepted and has room.
fn write_records(d: Dialect, t: Dialect, file: &[u8], room: &mut [u8])
    requires { Accepts d t file.now (length room.old) }
    ensures { room.new ≡ over (answer_in d t file.now (length room.old)).text room.old }
{
    let mut starts = [0usize; MAX_COLUMNS];
    let mut ends = [0usize; MAX_COLUMNS];
    let mut kinds = [0u8; MAX_COLUMNS];
    let mut cursor = file_cursor::at_start();
    let mut at: usize = 0;
    loop {
        let state = cursor.state;
        match file_cursor::fast::next_data_record(
            d,
            None,
            file,
            cursor.offset,
            state,
            cursor.done,
            cursor.columns,
            cursor.written,
            &mut starts,
            &mut ends,
            &mut kinds,
        ) {
            Some(FastNext { cursor: v, clean }) => {
                let cells = v.columns;
                at = record_writer::line::write_data(
                    d,
                    t,
                    file,
                    &starts[..cells],
                    &ends[..cells],
                    &kinds[..cells],
                    clean,
                    room,
                    at,
                );
                cursor = v;
            }
            None => match file_cursor::next_record(
                d,
                None,
                file,
                cursor,
                &mut starts,
                &mut ends,
                &mut kinds,
            ) {
                Ok(Some(v)) => {
                    let cells = v.columns;
                    at = write_record(
                        d,
                        t,
                        file,
                        &starts[..cells],
                        &ends[..cells],
                        &kinds[..cells],
                        cursor.done == 0,
                        room,
                        at,
                    );
                    cursor = v;
                }
                // Two arms: for an or-pattern the proof has no equation of the result.
                Ok(None) => {
                    return;
                }
                Err(_) => {
                    return;
                }
            },
        }
    }
}

// A file of the one dialect into the other.
pub fn convert_in(d: Dialect, t: Dialect, file: &[u8], room: &mut [u8]) -> TextAnswer
    ensures value { result ≡ text_answer (answer_in d t file.now (length room.old)) }
    ensures room_after { room.new ≡ over (answer_in d t file.now (length room.old)).text room.old }
{
    match measure(d, t, file) {
        Err(e) => codes::refusal(e),
        Ok(length) => {
            if room.len() < length {
                return codes::refusal(codes::call_report(codes::NO_ROOM));
            }
            write_records(d, t, file, room);
            TextAnswer {
                report: codes::call_report(codes::ACCEPTED),
                length,
            }
        }
    }
}

// The whole converter (§12.1): 11 for a number that is no dialect's. It ends on every input, accepts exactly what the rules accept, and
// its answer and its room are determined for all inputs (§19.1 §19.2 §19.5 §19.6).
pub fn convert(from: u32, to: u32, file: &[u8], room: &mut [u8]) -> TextAnswer
    ensures answer { result ≡ text_answer (converter from to file.now (length room.old)) }
    ensures leaves { room.new ≡ converter_leaves from to file.now room.old }
{
    match Dialect::try_from(from) {
        Ok(d) => match Dialect::try_from(to) {
            Ok(t) => convert_in(d, t, file, room),
            Err(_) => codes::refusal(codes::call_report(codes::WRONG_CALL)),
        },
        Err(_) => codes::refusal(codes::call_report(codes::WRONG_CALL)),
    }
}
