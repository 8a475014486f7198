// Runs of clean ASCII, eight bytes to a step: a slice, an offset and the stops go in, the end of the run comes out (`PassRun` of
// specs/TextRuns.antt). Inside quotes both stops are the quote, and outside they are the delimiter and the quote; the compiler inlines the
// run at each call site.
ghost use Rattle.std.specs.Prelude.{IfSome, ◌≤◌, length};
ghost use Rattle.swar.specs.Words.{clean_ascii};
ghost use Rattle.cell_fast.specs.TextRuns.{PassRun, FlaggedRun};

// Clean ASCII by whole words.
#[derive(Clone, Copy)]
pub struct CleanWords {
    // The end of the clean words.
    pub end: usize,
    // The flags of the next word, if eight bytes are left.
    pub flags: Option<u64>,
}

// The end of the clean ASCII from `at` other than p and q, a byte at a time.
fn single_steps(s: &[u8], at: usize, stop: usize, p: u8, q: u8) -> usize
    requires { (at ≤ stop) × (stop ≤ length s.now) }
    ensures { PassRun (clean_ascii p q) s.now at stop result }
{
    for i in at..stop {
        let b = s[i];
        if b < 0x20 || 0x7F < b || b == b'\\' || b == p || b == q {
            return i;
        }
    }
    stop
}

// The clean ASCII from `at` other than p and q, by whole words alone. The hint keeps the loop inside its callers, or the result would go
// through memory.
#[inline(always)]
pub fn clean_words(s: &[u8], at: usize, stop: usize, p: u8, q: u8) -> CleanWords
    requires { (at ≤ stop) × (stop ≤ length s.now) }
    ensures words { PassRun (clean_ascii p q) s.now at stop result.end }
    ensures flags { IfSome result.flags (FlaggedRun (clean_ascii p q) s.now at stop result.end) }
{
    // The loop counts the offset, since the end is an offset.
    let mut i = at;
    while 8 <= stop - i {
        let flags = swar::unclean(swar::word(s, i), p, q);
        if flags != 0 {
            return CleanWords {
                end: i,
                flags: Some(flags),
            };
        }
        i += 8;
    }
    CleanWords {
        end: i,
        flags: None,
    }
}

// The end of the clean ASCII from `at` other than p and q.
pub fn clean_run(s: &[u8], at: usize, stop: usize, p: u8, q: u8) -> usize
    requires { (at ≤ stop) × (stop ≤ length s.now) }
    ensures { PassRun (clean_ascii p q) s.now at stop result }
{
    let words = clean_words(s, at, stop, p, q);
    match words.flags {
        Some(flags) => words.end + swar::before_flag(flags),
        None => single_steps(s, words.end, stop, p, q),
    }
}
