// Runs of plain bytes, which are verbatim in the source and in the target: an offset and the quotes go in, the end of the run comes out.
// The definition is `plain_run` of specs/PlainRuns.antt.
ghost use Rattle.std.specs.Prelude.{◌≡◌, ◌+◌, ◌≤◌, length, drop};
ghost use Rattle.swar.specs.Words.{Flags};
ghost use Rattle.cell_writer.specs.PlainRuns.{is_plain, plain_run};

// Whether a byte is plain: at least 20 hex, no backslash, not ED hex, which may begin a lone surrogate, and none of p, q and r, among
// which are the quotes of the source and of the target.
fn is_plain(p: u8, q: u8, r: u8, b: u8) -> bool
    ensures { result ≡ is_plain p q r b }
{
    0x20 <= b && b != b'\\' && b != 0xED && b != p && b != q && b != r
}

// The end of the run from `at`, a byte at a time.
fn single_steps(s: &[u8], at: usize, p: u8, q: u8, r: u8) -> usize
    requires { at ≤ length s.now }
    ensures { result ≡ at + plain_run p q r (drop at s.now) }
{
    let mut i = at;
    // No `position`: a run up to the end of the slice would be a case of its own.
    while i < s.len() && is_plain(p, q, r, s[i]) {
        i += 1;
    }
    i
}

// The top bit of each byte of a word that is not plain, if q and r are equal.
fn unplain(w: u64, p: u8, q: u8) -> u64
    ensures { Flags (is_plain p q q) w result }
{
    let plain = swar::from_20(w)
        & swar::other_than(w, 0x5C)
        & swar::other_than(w, 0xED)
        & swar::other_than(w, p)
        & swar::other_than(w, q);
    plain ^ 0x8080808080808080
}

// The end of the run from `at`, eight bytes to a step, if q and r are equal. A word with a flag ends it.
fn word_steps(s: &[u8], at: usize, p: u8, q: u8) -> usize
    requires { at ≤ length s.now }
    ensures { result ≡ at + plain_run p q q (drop at s.now) }
{
    let mut i = at;
    // No `chunks`: a flag ends the run within its word.
    while 8 <= s.len() - i {
        let flags = unplain(swar::word(s, i), p, q);
        if flags != 0 {
            return i + swar::before_flag(flags);
        }
        i += 8;
    }
    single_steps(s, i, p, q, q)
}

// The end of the run from `at`, by words if p and q are equal, as they mostly are: a third stop in each word's test took a tenth more
// time in long cells.
pub fn plain_run(s: &[u8], at: usize, p: u8, q: u8, r: u8) -> usize
    requires { at ≤ length s.now }
    ensures { result ≡ at + plain_run p q r (drop at s.now) }
{
    if p == q {
        return word_steps(s, at, p, r);
    }
    single_steps(s, at, p, q, r)
}
