// The fast path to the end of a cell, by whole runs of bytes: the start of a cell goes in; its end comes out, with whether the cell is
// verbatim, or none, which is to fall back to the automaton. The contract is one-sided (`CellEndSound` of specs/Ends.antt): an end that
// is found is the automaton's.
//
// The next cell waits for this one's end. So the end of a short cell is guessed from the delimiter or the quote alone, and the bytes
// before it are tested beside that: tables of short cells take a sixth less time.
//
// runs.rt skips clean ASCII, text.rt text inside quotes and outside, value.rt the values of CSVJ and TDIF.
#![tactic(auto)]

ghost use Rattle.std.specs.Prelude.{◌≡◌, true, ℕ, ◌+◌, ◌≤◌, ◌<◌, length, get_or};
ghost use Rattle.model.specs.declared.Dialect.{Dialect as TheDialect};
ghost use Rattle.model.specs.rules.Dialect.{delimiter_of, quote_of};
ghost use Rattle.model.specs.rules.Cell.{may_be_empty};
ghost use Rattle.swar.specs.Words.{clean_ascii};
ghost use Rattle.cell_fast.specs.Ends.{CellEndSound};
ghost use Rattle.cell_fast.specs.TextRuns.{PassRun};
ghost use Rattle.cell_fast.specs.CellOutcome.{Closes, is_end};

use model::Dialect;

pub mod runs;
pub mod text;
pub mod value;

// The end of a cell, and whether it is verbatim: its content is its bytes.
#[derive(Clone, Copy)]
pub struct FoundEnd {
    pub at: usize,
    pub clean: bool,
}

// Whether the byte at i is the quote that closes the cell; false also where the automaton has to decide.
fn closes(d: Dialect, q: u8, s: &[u8], i: usize, stop: usize) -> bool
    requires { (i < stop) × (stop ≤ length s.now) × (q ≡ quote_of d) }
    ensures { result ≡ true → Closes d s.now stop i }
{
    if s[i] != q || stop - i < 2 {
        return false;
    }
    match d {
        Dialect::Csvj => true,
        // Two arms for one test: the must-fail edit `doubled_quote_closes` breaks one dialect alone.
        Dialect::Tdif => s[i + 1] != q,
        Dialect::CsvPlus(_) => s[i + 1] != q,
    }
}

// The end of a quoted cell whose text continues at `from`.
fn quoted_rest_end(d: Dialect, q: u8, s: &[u8], from: usize, stop: usize) -> Option<FoundEnd>
    requires { (from ≤ stop) × (stop ≤ length s.now) × (q ≡ quote_of d) }
    ensures { (at : ℕ) → at < stop → get_or s.now at 0 ≡ q → PassRun (clean_ascii q q) s.now (at + 1) stop from → CellEndSound d s.now at stop result }
{
    let text = text::quoted_text(d, s, from, stop, q);
    if text.end < stop && closes(d, q, s, text.end, stop) {
        return Some(FoundEnd {
            at: text.end + 1,
            clean: text.clean,
        });
    }
    None
}

// The end of the quoted cell at `at`; first by a guess, the next quote.
fn quoted_end(d: Dialect, q: u8, s: &[u8], at: usize, stop: usize) -> Option<FoundEnd>
    requires { (at < stop) × (stop ≤ length s.now) × (q ≡ quote_of d) × (get_or s.now at 0 ≡ q) }
    ensures { CellEndSound d s.now at stop result }
{
    let words = runs::clean_words(s, at + 1, stop, q, q);
    let from = words.end;
    if let Some(flags) = words.flags {
        if let Some(n) = swar::guess(swar::word(s, from), q)
            && n == swar::before_flag(flags)
            && closes(d, q, s, from + n, stop)
        {
            return Some(FoundEnd {
                at: from + n + 1,
                clean: true,
            });
        }
    }
    quoted_rest_end(d, q, s, from, stop)
}

// Whether an unquoted cell of CSV+ ends before this byte.
fn is_end(b: u8, p: u8) -> bool
    ensures { result ≡ is_end p b }
{
    b == p || matches!(b, b'\n' | b'\r')
}

// The end of the unquoted cell of CSV+ at `at`, by runs and characters.
fn plain_rest_end(s: &[u8], at: usize, stop: usize, p: u8, q: u8) -> Option<FoundEnd>
    requires { (at < stop) × (stop ≤ length s.now) × (p < 0x80) × (q < 0x80) × (get_or s.now at 0 ≡ q → ⊥) }
    ensures { (d : TheDialect) → may_be_empty d ≡ true → p ≡ delimiter_of d → q ≡ quote_of d → CellEndSound d s.now at stop result }
{
    let i = text::plain_text(s, at, stop, p, q);
    if i < stop && is_end(s[i], p) {
        return Some(FoundEnd { at: i, clean: true });
    }
    None
}

// The end of the unquoted cell of CSV+ at `at`; first by a guess, the next delimiter.
fn plain_end(s: &[u8], at: usize, stop: usize, p: u8, q: u8) -> Option<FoundEnd>
    requires { (at < stop) × (stop ≤ length s.now) × (p < 0x80) × (q < 0x80) × (get_or s.now at 0 ≡ q → ⊥) }
    ensures { (d : TheDialect) → may_be_empty d ≡ true → p ≡ delimiter_of d → q ≡ quote_of d → CellEndSound d s.now at stop result }
{
    if 8 <= stop - at {
        let w = swar::word(s, at);
        if let Some(n) = swar::guess(w, p)
            && s[at + n] == p
            && n == swar::before_flag(swar::unclean(w, p, q))
        {
            return Some(FoundEnd {
                at: at + n,
                clean: true,
            });
        }
    }
    plain_rest_end(s, at, stop, p, q)
}

// The end of the cell at `at`. p is the dialect's delimiter, q its quote.
pub fn cell_end(d: Dialect, p: u8, q: u8, s: &[u8], at: usize, stop: usize) -> Option<FoundEnd>
    requires { (at < stop) × (stop ≤ length s.now) × (p ≡ delimiter_of d) × (q ≡ quote_of d) }
    ensures { CellEndSound d s.now at stop result }
{
    if s[at] == q {
        return quoted_end(d, q, s, at, stop);
    }
    match d {
        Dialect::Csvj => Some(FoundEnd {
            at: value::value_end(s, at, stop)?,
            clean: false,
        }),
        Dialect::Tdif => Some(FoundEnd {
            at: value::null_end(s, at, stop)?,
            clean: false,
        }),
        Dialect::CsvPlus(_) => plain_end(s, at, stop, p, q),
    }
}
