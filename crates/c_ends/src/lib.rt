// The C boundary for the end of a file that came in pieces: the calls of piece_converter under their C names, with their contracts and no
// logic. `include/hemakuliwi.h` declares them for C. c_pieces says why this is a crate of its own.
#![tactic(auto)]

ghost use Rattle.std.specs.Prelude.{length};
ghost use Rattle.model.specs.rules.Ledger.{finish};
ghost use Rattle.piece_converter.specs.Contract.{converter_of, CallContract};

use codes::TextAnswer;
use piece_converter::{Converter, PieceAnswer};

// The end of the file, by value.
#[unsafe(no_mangle)]
pub extern "C" fn hk_end(converter: Converter, out: &mut [u8]) -> PieceAnswer
    ensures { CallContract converter (finish (length out.old)) out.old result.answer result.next out.new }
{
    converter.end(out)
}

// The end of the file, over a state that is lent field by field.
#[unsafe(no_mangle)]
pub extern "C" fn hk_end_lent(
    source: u32,
    target: u32,
    numbers: &mut [usize; 14],
    ends: &mut [usize; 64],
    name_ends: &mut [usize; 64],
    bytes: &mut [u8; 4096],
    names: &mut [u8; 4096],
    out: &mut [u8],
) -> TextAnswer
    ensures { CallContract (converter_of source target numbers.old ends.old name_ends.old bytes.old names.old) (finish (length out.old)) out.old result (converter_of source target numbers.new ends.new name_ends.new bytes.new names.new) out.new }
{
    piece_converter::lent::end(source, target, numbers, ends, name_ends, bytes, names, out)
}
