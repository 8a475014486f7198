// The content of a raw cell of a file, written into the caller's room. The definition is `content_of` of model's specs/rules/Decode.antt.
ghost use Rattle.std.specs.Prelude.{◌≡◌, ◌≤◌, length};
ghost use Rattle.model.specs.rules.Base.{over};
ghost use Rattle.model.specs.rules.Decode.{content_of};

use cell_decoder::Decoded;
use model::Dialect;

// Writes the content of a cell to the beginning of a room that is at least as long as the cell, and returns its length.
pub fn write_content(d: Dialect, raw: &[u8], room: &mut [u8]) -> usize
    requires { length raw.now ≤ length room.old }
    ensures { (result ≡ length (content_of d raw.now))
        × (room.new ≡ over (content_of d raw.now) room.old) }
{
    // Content is no longer than its cell, so the room is never too short: this arm is proved unreachable.
    let Ok(Decoded { size, kind: _ }) = cell_decoder::decode_sound(d, raw, room) else {
        return 0;
    };
    size
}
