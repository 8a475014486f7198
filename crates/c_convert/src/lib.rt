// The C boundary for conversion: the converter's call under its C name, with no logic of its own. `include/hemakuliwi.h` declares it for
// C. Its contract is the converter's. It is a crate of its own, so that it has its own copy of the scanner and the reader loses no speed.
#![tactic(auto)]

ghost use Rattle.std.specs.Prelude.{◌≡◌, length};
ghost use Rattle.model.specs.rules.Api.{converter, converter_leaves};
ghost use Rattle.codes.specs.Named.{text_answer};

use codes::TextAnswer;

// A whole file to canonical text, in `room`.
#[unsafe(no_mangle)]
pub extern "C" fn hk_convert(from: u32, to: u32, file: &[u8], room: &mut [u8]) -> TextAnswer
    ensures answer { result ≡ text_answer (converter from to file.now (length room.old)) }
    ensures leaves { room.new ≡ converter_leaves from to file.now room.old }
{
    file_converter::convert(from, to, file, room)
}
