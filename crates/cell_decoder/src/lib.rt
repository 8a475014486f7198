// The decoder of one cell. A dialect's number, the raw bytes of a cell and a room go in; the content comes out in the room, with its
// length and kind as the answer, or a refusal that leaves the room unchanged.
//
// It validates first and writes afterwards, so that nothing is written before all is known to fit: content is no longer than its cell,
// and is measured only where the room is shorter than the cell. The definitions are model's specs/rules/Decode.antt, and `decoder` and
// `decoder_leaves` of its specs/rules/Api.antt; specs/Answer.antt says what an answer means in the rules' numbers.
//
// source.rt says what the bytes of a cell are, first_byte.rt how they are encoded, validate.rt checks them by the automaton, escape.rt
// reads an escape of CSVJ, and content.rt measures and writes.
#![tactic(auto)]

ghost use Rattle.std.specs.Prelude.{◌≡◌, ◌≤◌, length};
ghost use Rattle.model.specs.rules.Base.{over};
ghost use Rattle.model.specs.rules.Decode.{content_of};
ghost use Rattle.model.specs.rules.Api.{decoder, decoder_leaves};
ghost use Rattle.cell_decoder.specs.Answer.{given_answer, decoder_answer, sound_cell, any_cell};

use codes::cell;
use model::{Dialect, Kind, Report};

pub mod content;
pub mod escape;
pub mod first_byte;
pub mod source;
pub mod validate;

// The content is in the room and has this length.
#[derive(Clone, Copy)]
pub struct Decoded {
    pub size: usize,
    pub kind: Kind,
}

// ---- cells that are known to be sound

// The length of the content of a cell.
pub fn content_length(d: Dialect, raw: &[u8]) -> usize
    ensures { result ≡ length (content_of d raw.now) }
{
    content::length_in(first_byte::spelling_by(d, cell::first_of(raw)), raw)
}

// The content of a cell, at the beginning of a room that has space for it, and its length.
fn write_content(d: Dialect, raw: &[u8], room: &mut [u8]) -> usize
    requires { length (content_of d raw.now) ≤ length room.old }
    ensures size { result ≡ length (content_of d raw.now) }
    ensures text { room.new ≡ over (content_of d raw.now) room.old }
{
    content::write_in(first_byte::spelling_by(d, cell::first_of(raw)), raw, room)
}

// A cell that is not validated again: 10 if its content is longer than the room (§11.6).
pub fn decode_sound(d: Dialect, raw: &[u8], room: &mut [u8]) -> Result<Decoded, Report>
    ensures result_value { given_answer result ≡ decoder_answer (sound_cell d raw.now (length room.old)) }
    ensures room_after { room.new ≡ over (sound_cell d raw.now (length room.old)).content room.old }
{
    let kind = cell::kind_of(d, raw);
    // Content is no longer than its cell, so it is measured first only where the room is shorter.
    if raw.len() <= room.len() {
        let size = write_content(d, raw, room);
        return Ok(Decoded { size, kind });
    }
    let size = content_length(d, raw);
    if room.len() < size {
        return Err(codes::call_report(codes::NO_ROOM));
    }
    write_content(d, raw, room);
    Ok(Decoded { size, kind })
}

// ---- any raw bytes

// A cell of this dialect: 2, 3 or 4 if the bytes are no single cell (§11.2 §11.3 §11.4).
pub fn decode_cell(d: Dialect, raw: &[u8], room: &mut [u8]) -> Result<Decoded, Report>
    ensures result_value { given_answer result ≡ decoder_answer (any_cell d raw.now (length room.old)) }
    ensures room_after { room.new ≡ over (any_cell d raw.now (length room.old)).content room.old }
{
    validate::validate_cell(d, raw).map_err(|f| codes::record_report(f.fault, 0, f.offset))?;
    decode_sound(d, raw, room)
}

// The decoder (§11.1): 11 for a number that is no dialect's. It ends on every input, and its answer and its room are determined for all
// of them (§19.1 §19.5 §19.6).
pub fn decode(dialect: u32, raw: &[u8], room: &mut [u8]) -> Result<Decoded, Report>
    ensures answer { given_answer result ≡ decoder_answer (decoder dialect raw.now (length room.old)) }
    ensures leaves { room.new ≡ decoder_leaves dialect raw.now room.old }
{
    let Ok(d) = Dialect::try_from(dialect) else {
        return Err(codes::call_report(codes::WRONG_CALL));
    };
    decode_cell(d, raw, room)
}
