// Bytes written into a lent buffer at an offset, or only measured. Every writer above uses these, with the record `Writing` or `Emitting`
// of proofs/WriteProgress.antt: what the buffer holds and what remains, with one law for each step.
//
// `emit` and `emit_byte` measure if `write` is false and leave the buffer alone, so that measuring and writing a text are one loop with
// one proof. A measure stops at the limit of a file: every text has one, and no sum overflows.
#![tactic(auto)]

ghost use Rattle.std.specs.Prelude.{◌≡◌, ◌+◌, ◌≤◌, length, [], ◌∷◌};
ghost use Rattle.model.specs.rules.Report.{MAXFILE};
ghost use Rattle.buffer.specs.Writes.{written, measure, Room, WrittenAt};

use codes::MAX_FILE;

pub mod blocks;
pub mod short;

// Copies src into out from `at` on, and returns the offset after it.
pub fn copy(out: &mut [u8], at: usize, src: &[u8]) -> usize
    requires { at + length src.now ≤ length out.old }
    ensures { (result ≡ at + length src.now)
        × (out.new ≡ written out.old at src.now) }
{
    if src.len() < 8 {
        blocks::copy_short(out, at, src);
    } else {
        blocks::copy_long(out, at, src);
    }
    at + src.len()
}

// The offset after n bytes from o on, where they are only measured.
pub fn measured(o: usize, n: usize) -> usize
    requires { o ≤ MAXFILE }
    ensures { result ≡ measure (o + n) }
{
    o + n.min(MAX_FILE - o)
}

// All of s at o, or only measured.
pub fn emit(out: &mut [u8], o: usize, s: &[u8], write: bool) -> usize
    requires { Room write o s.now out.old }
    ensures { WrittenAt write out.old o s.now out.new result }
{
    if write {
        return copy(out, o, s);
    }
    measured(o, s.len())
}

// One byte at o, or only measured.
pub fn emit_byte(out: &mut [u8], o: usize, b: u8, write: bool) -> usize
    requires { Room write o (b ∷ []) out.old }
    ensures { WrittenAt write out.old o (b ∷ []) out.new result }
{
    if write {
        out[o] = b;
        return o + 1;
    }
    measured(o, 1)
}
