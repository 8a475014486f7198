// The C boundary for single cells and for tables of contents: the decoder and the writer under their C names, with no logic.
// `include/hemakuliwi.h` declares them for C. Their contracts are their definitions', for the decoder with a struct in place of its enum
// (specs/Answer.antt).
//
// It is a crate of its own, apart from those for whole files, so that each has a copy of the lexer: where both called the same one, it
// would not be inlined into the reader's loop, which would lose a third of its speed. The writer is here since it uses the lexer to see
// whether a content is a number.
#![tactic(auto)]

ghost use Rattle.std.specs.Prelude.{◌≡◌, length};
ghost use Rattle.model.specs.rules.Api.{decoder, decoder_leaves, writer, writer_leaves};
ghost use Rattle.cell_decoder.specs.Answer.{decoder_answer, given_answer};
ghost use Rattle.codes.specs.Named.{text_answer};
ghost use Rattle.table_writer.specs.TableParts.{given};
ghost use Rattle.c_cells.specs.Answer.{struct_answer};

use cell_decoder::Decoded;
use codes::TextAnswer;
use model::Report;

// What the decoder returns: a report, and the content's length and kind, which are 0 on refusal.
#[repr(C)]
#[derive(Clone, Copy)]
pub struct DecodeAnswer {
    pub report: Report,
    pub length: usize,
    pub kind: usize,
}

fn answer_of(d: Result<Decoded, Report>) -> DecodeAnswer
    ensures { struct_answer result ≡ given_answer d }
{
    let Ok(Decoded { size, kind }) = d else {
        return DecodeAnswer {
            report: d.unwrap_err(),
            length: 0,
            kind: 0,
        };
    };
    DecodeAnswer {
        report: codes::call_report(codes::ACCEPTED),
        length: size,
        kind: u8::from(kind) as usize,
    }
}

// Decodes the raw bytes of one cell to its content, in `room`.
#[unsafe(no_mangle)]
pub extern "C" fn hk_decode(dialect: u32, raw: &[u8], room: &mut [u8]) -> DecodeAnswer
    ensures answer { struct_answer result ≡ decoder_answer (decoder dialect raw.now (length room.old)) }
    ensures leaves { room.new ≡ decoder_leaves dialect raw.now room.old }
{
    answer_of(cell_decoder::decode(dialect, raw, room))
}

// Writes a table of contents as canonical text, in `room`. Its contract is the writer's.
#[unsafe(no_mangle)]
pub extern "C" fn hk_write(
    dialect: u32,
    content: &[u8],
    starts: &[usize],
    ends: &[usize],
    kinds: &[u8],
    columns: usize,
    records: usize,
    room: &mut [u8],
) -> TextAnswer
    ensures answer { result ≡ text_answer (writer dialect
        (given content.now starts.now ends.now kinds.now columns records)
        (length room.old)) }
    ensures leaves { room.new ≡ writer_leaves dialect
        (given content.now starts.now ends.now kinds.now columns records)
        room.old }
{
    table_writer::write(
        dialect, content, starts, ends, kinds, columns, records, room,
    )
}
