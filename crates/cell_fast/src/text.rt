// Text inside quotes and outside: runs, and what stops a run inside quotes and is part of the text. An offset goes in, the end of the
// text comes out, or none; the definitions are `QuotedText` of specs/CellOutcome.antt and `TextRun` of specs/TextRuns.antt.
ghost use Rattle.std.specs.Prelude.{◌≡◌, false, IfSome, ◌≤◌, ◌<◌, length, get_or};
ghost use Rattle.model.specs.declared.Dialect.{Dialect as TheDialect};
ghost use Rattle.model.specs.declared.Dialect.TheVariants.{Csvj};
ghost use Rattle.model.specs.rules.Dialect.{quote_of, is_csvj};
ghost use Rattle.cell_fast.specs.TextRuns.{TextRun, is_open};
ghost use Rattle.cell_fast.specs.CellOutcome.{Passed, QuotedText};

use crate::runs;
use model::Dialect;
use utf8::multibyte::multibyte_run;

// The end of the escape with four digits whose backslash is at i.
fn long_escape_end(s: &[u8], i: usize, stop: usize) -> Option<usize>
    requires { (i < stop) × (stop ≤ length s.now) × (get_or s.now i 0 ≡ 0x5C) }
    ensures { IfSome result (Passed Csvj s.now stop i) }
{
    if stop - i < 6
        || s[i + 1] != b'u'
        || !cell_lexer::values::is_hex(s[i + 2])
        || !cell_lexer::values::is_hex(s[i + 3])
        || !cell_lexer::values::is_hex(s[i + 4])
        || !cell_lexer::values::is_hex(s[i + 5])
    {
        return None;
    }
    Some(i + 6)
}

// The end of the escape whose backslash is at i.
fn escape_end(s: &[u8], i: usize, stop: usize) -> Option<usize>
    requires { (i < stop) × (stop ≤ length s.now) × (get_or s.now i 0 ≡ 0x5C) }
    ensures { IfSome result (Passed Csvj s.now stop i) }
{
    if stop - i < 2 {
        return None;
    }
    if cell_lexer::values::is_short(s[i + 1]) {
        return Some(i + 2);
    }
    long_escape_end(s, i, stop)
}

// Where quotes are doubled: the end of two quotes at i, or of any other ASCII byte; none if the quote is single.
fn doubled_end(q: u8, s: &[u8], i: usize, stop: usize) -> Option<usize>
    requires { (i < stop) × (stop ≤ length s.now) × (get_or s.now i 0 < 0x80) }
    ensures { (d : TheDialect) → is_csvj d ≡ false → q ≡ quote_of d → IfSome result (Passed d s.now stop i) }
{
    if s[i] != q {
        return Some(i + 1);
    }
    if stop - i < 2 || s[i + 1] != q {
        return None;
    }
    Some(i + 2)
}

// The end of what stops a run at i and is part of the text inside quotes; none if nothing is, or to fall back.
fn pass(d: Dialect, q: u8, s: &[u8], i: usize, stop: usize) -> Option<usize>
    requires { (i < stop) × (stop ≤ length s.now) × (q ≡ quote_of d) }
    ensures { IfSome result (Passed d s.now stop i) }
{
    if 0x80 <= s[i] {
        let next = multibyte_run(s, i, stop);
        if next == i {
            return None;
        }
        return Some(next);
    }
    match d {
        Dialect::Csvj => {
            if s[i] != b'\\' {
                return None;
            }
            escape_end(s, i, stop)
        }
        Dialect::Tdif | Dialect::CsvPlus(_) => doubled_end(q, s, i, stop),
    }
}

// The end of a text, and whether it is verbatim.
#[derive(Clone, Copy)]
pub struct TextEnd {
    pub end: usize,
    pub clean: bool,
}

// The end of the text inside quotes from `at`, at most `stop`. A text with an ASCII byte that stops a run is not verbatim.
pub fn quoted_text(d: Dialect, s: &[u8], at: usize, stop: usize, q: u8) -> TextEnd
    requires { (at ≤ stop) × (stop ≤ length s.now) × (q ≡ quote_of d) }
    ensures { QuotedText d s.now stop at result.end result.clean }
{
    // The offset moves by whole runs.
    let mut i = at;
    let mut clean = true;
    loop {
        i = runs::clean_run(s, i, stop, q, q);
        if stop <= i {
            return TextEnd { end: i, clean };
        }
        let Some(next) = pass(d, q, s, i, stop) else {
            return TextEnd { end: i, clean };
        };
        if s[i] < 0x80 {
            clean = false;
        }
        i = next;
    }
}

// The end of the text of an unquoted cell from `at`, at most `stop`. It passes no escape and no quote, so that it shares the run alone with
// `quoted_text`.
pub fn plain_text(s: &[u8], at: usize, stop: usize, p: u8, q: u8) -> usize
    requires { (at ≤ stop) × (stop ≤ length s.now) × (p < 0x80) × (q < 0x80) }
    ensures { TextRun (is_open p q) s.now at stop result }
{
    // The offset moves by whole runs.
    let mut i = at;
    loop {
        i = runs::clean_run(s, i, stop, p, q);
        if stop <= i {
            return i;
        }
        if s[i] < 0x80 {
            return i;
        }
        let next = multibyte_run(s, i, stop);
        if next == i {
            return i;
        }
        i = next;
    }
}
