// The rest of a cell or of a comment, by the automaton, by runs of ordinary ASCII bytes, eight to a step, and by the digits of a number.
// A state and a slice go in; where the cell stops or is refused comes out, or the state in which it is still open. The definitions are
// `cell_run` and `leading` of specs/Run.antt; specs/RunLaw.antt says why a reader may skip a run. A new stop of a run needs `run_step` of
// proofs/Runs.antt again.
#![tactic(auto)]

ghost use Rattle.std.specs.Prelude.{◌≡◌, true, ◌+◌, ◌/◌, ◌%◌, ◌≤◌, ◌<◌, length};
ghost use Rattle.model.specs.rules.Api.{slice};
ghost use Rattle.swar.specs.Words.{ordinary};
ghost use Rattle.model.specs.declared.Dialect.{Dialect as TheDialect};
ghost use Rattle.cell_scanner.specs.Run.{leading, comment_run, text_stop, run_stop, cell_run, KeepsDigits, RestFrom};

use model::{ByteFault, Cell, CellStep, Char, Dialect, Numeral};

// Whether a run with these stops passes a byte.
#[tactic(auto, unfolding(swar::specs::Words::ordinary))]
fn is_ordinary(b: u8, p: u8, q: u8) -> bool
    ensures { result ≡ ordinary p q b }
{
    matches!(b, 0x20..=0x7E) && b != p && b != q
}

// The end of a run from `at`, a byte at a time, where fewer than eight bytes are left before `stop`.
fn single_steps(s: &[u8], at: usize, stop: usize, p: u8, q: u8) -> usize
    requires { (at ≤ stop) × (stop ≤ length s.now) × (stop < at + 8) }
    ensures { result ≡ at + leading p q (slice s.now at stop) }
{
    for i in at..stop {
        if !is_ordinary(s[i], p, q) {
            return i;
        }
    }
    stop
}

// The number of whole words of ordinary bytes in a run, and of its bytes after them. The number of words is the number of steps: that a
// run takes no more is promised too.
#[derive(Clone, Copy)]
struct RunSteps {
    words: usize,
    rest: usize,
}

// The words of a run from `at`, at most up to `stop`. The run ends in the first word with a flag, and the flag's index gives the rest at
// once.
fn word_steps(s: &[u8], at: usize, stop: usize, p: u8, q: u8) -> RunSteps
    requires { (at ≤ stop) × (stop ≤ length s.now) }
    ensures { (result.words ≡ leading p q (slice s.now at stop) / 8) × (result.rest ≡ leading p q (slice s.now at stop) % 8) }
{
    for words in 0..(stop - at) / 8 {
        let flags = swar::unordinary(swar::word(s, at + 8 * words), p, q);
        if flags != 0 {
            return RunSteps {
                words,
                rest: swar::before_flag(flags),
            };
        }
    }
    let words = (stop - at) / 8;
    let i = at + 8 * words;
    RunSteps {
        words,
        rest: single_steps(s, i, stop, p, q) - i,
    }
}

// The end of the run of ordinary bytes from `at`, at most `stop`. It ends at a byte outside 20 to 7E hex, at `p` and at `q`.
#[tactic(auto, using(crate::proofs::Runs::part_short))]
fn run(s: &[u8], at: usize, stop: usize, p: u8, q: u8) -> usize
    requires { (at ≤ stop) × (stop ≤ length s.now) }
    ensures { result ≡ at + leading p q (slice s.now at stop) }
{
    let taken = word_steps(s, at, stop, p, q);
    at + 8 * taken.words + taken.rest
}

// A comment has no stops of its own, and 0 is not ordinary.
const NO_STOP: u8 = 0;

// The end of a comment's ordinary bytes from `at`, at most `stop`. Kept out of the scanner's loop, which would else hold the words of a
// run for each byte between cells.
#[inline(never)]
pub fn comment_run(s: &[u8], at: usize, stop: usize) -> usize
    requires { (at ≤ stop) × (stop ≤ length s.now) }
    ensures { result ≡ at + comment_run (slice s.now at stop) }
{
    run(s, at, stop, NO_STOP, NO_STOP)
}

// Where the rest of a cell ends.
#[derive(Clone, Copy)]
pub enum CellEnd {
    // The byte at this offset is not part of the cell, which is whole without it.
    Stopped(Cell, usize),
    Refused(ByteFault, usize),
    // The bytes ended before the cell did.
    Open(Cell),
}

fn text_stop(t: Char, q: u8) -> Option<u8>
    ensures { result ≡ text_stop t q }
{
    matches!(t, Char::Whole).then_some(q)
}

// The byte beside the quote at which a run ends in this state, if ordinary bytes leave the state unchanged.
pub fn run_stop(d: Dialect, c: Cell) -> Option<u8>
    ensures { result ≡ run_stop d c }
{
    match c {
        Cell::Quoted(t) => text_stop(t, b'\\'),
        Cell::Plain(t) => text_stop(t, cell_lexer::delimiter_of(d)),
        _ => None,
    }
}

// Whether digits leave this state of a number unchanged.
fn keeps_digits(n: Numeral) -> bool
    ensures { result ≡ true → KeepsDigits (Cell.InNumber n) }
{
    match n {
        Numeral::Integer => true,
        Numeral::Fraction => true,
        Numeral::Exponent => true,
        _ => false,
    }
}

// The end of the digits from `at`, at most `stop`, if they leave the state unchanged. A step of the automaton for each digit takes three times as long, or more.
fn digit_run(c: Cell, s: &[u8], at: usize, stop: usize) -> usize
    requires { (at ≤ stop) × (stop ≤ length s.now) }
    ensures { (d : TheDialect) → RestFrom d c s.now stop at result }
{
    let Cell::InNumber(n) = c else {
        return at;
    };
    if !keeps_digits(n) {
        return at;
    }
    for i in at..stop {
        if !cell_lexer::values::is_digit(s[i]) {
            return i;
        }
    }
    stop
}

// The end of the bytes from `at`, at most `stop`, that leave the state unchanged and need no step: ordinary ones of a text, and digits.
fn cell_run(d: Dialect, c: Cell, s: &[u8], at: usize, stop: usize) -> usize
    requires { (at ≤ stop) × (stop ≤ length s.now) }
    ensures { RestFrom d c s.now stop at result }
{
    match run_stop(d, c) {
        Some(q) => run(s, at, stop, cell_lexer::quote_of(d), q),
        None => digit_run(c, s, at, stop),
    }
}

// The rest of a cell from `from`, at most up to `stop`. The offset jumps over runs, so no `for` counts it.
pub fn cell_end(d: Dialect, c0: Cell, s: &[u8], from: usize, stop: usize) -> CellEnd
    requires { (from ≤ stop) × (stop ≤ length s.now) }
    ensures { result ≡ cell_run d c0 from (slice s.now from stop) }
{
    let mut c = c0;
    let mut i = from;
    while i < stop {
        match cell_lexer::cell_step(d, c, s[i]) {
            CellStep::More(next) => {
                c = next;
            }
            CellStep::Stop => {
                return CellEnd::Stopped(c, i);
            }
            CellStep::Refuse(e) => {
                return CellEnd::Refused(e, i);
            }
        }
        i = cell_run(d, c, s, i + 1, stop);
    }
    CellEnd::Open(c)
}
