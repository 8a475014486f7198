// The C boundary for whole files: the reader's call under its C name, with no logic of its own. A slice is passed as a pointer and a
// length; `include/hemakuliwi.h` declares the call for C. Its contract is the reader's.
#![tactic(auto)]

ghost use Rattle.std.specs.Prelude.{◌≡◌};
ghost use Rattle.model.specs.rules.Api.{read_call};
ghost use Rattle.file_reader.specs.Answers.{call_answer};

use file_reader::Answer;

// The cells of a whole file: their starts, ends and kinds.
#[unsafe(no_mangle)]
pub extern "C" fn hk_read(
    dialect: u32,
    file: &[u8],
    starts: &mut [usize],
    ends: &mut [usize],
    kinds: &mut [u8],
) -> Answer
    ensures answer { result ≡ call_answer (read_call dialect file.now starts.old ends.old kinds.old) }
    ensures leaves_starts { starts.new ≡ (read_call dialect file.now starts.old ends.old kinds.old).starts }
    ensures leaves_ends { ends.new ≡ (read_call dialect file.now starts.old ends.old kinds.old).ends }
    ensures leaves_kinds { kinds.new ≡ (read_call dialect file.now starts.old ends.old kinds.old).kinds }
{
    file_reader::read(dialect, file, starts, ends, kinds)
}
