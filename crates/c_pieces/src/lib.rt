// The C boundary for conversion in pieces: the calls of piece_converter under their C names, with their contracts and no logic.
// `include/hemakuliwi.h` declares them for C. The end calls are a crate of their own (c_ends), so that the code that completes a record
// has one caller here and is inlined into the loop over the steps.
#![tactic(auto)]

ghost use Rattle.std.specs.Prelude.{◌≡◌, length};
ghost use Rattle.model.specs.rules.Ledger.{piece};
ghost use Rattle.piece_converter.specs.Contract.{converter_of, new_converter, CallContract};

use codes::TextAnswer;
use piece_converter::{Converter, PieceAnswer};

// A converter from one dialect to another.
#[unsafe(no_mangle)]
pub extern "C" fn hk_converter_new(from: u32, to: u32) -> Converter
    ensures { result ≡ new_converter from to }
{
    Converter::new(from, to)
}

// The next bytes of the file, by value.
#[unsafe(no_mangle)]
pub extern "C" fn hk_piece(converter: Converter, input: &[u8], out: &mut [u8]) -> PieceAnswer
    ensures { CallContract converter (piece input.now (length out.old)) out.old result.answer result.next out.new }
{
    converter.piece(input, out)
}

// The next bytes of the file, over a state that is lent field by field.
#[unsafe(no_mangle)]
pub extern "C" fn hk_piece_lent(
    source: u32,
    target: u32,
    numbers: &mut [usize; 14],
    ends: &mut [usize; 64],
    name_ends: &mut [usize; 64],
    bytes: &mut [u8; 4096],
    names: &mut [u8; 4096],
    input: &[u8],
    out: &mut [u8],
) -> TextAnswer
    ensures { CallContract (converter_of source target numbers.old ends.old name_ends.old bytes.old names.old) (piece input.now (length out.old)) out.old result (converter_of source target numbers.new ends.new name_ends.new bytes.new names.new) out.new }
{
    piece_converter::lent::piece(
        source, target, numbers, ends, name_ends, bytes, names, input, out,
    )
}
