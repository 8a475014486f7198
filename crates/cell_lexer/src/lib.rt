// The automaton of one cell, a byte at a time, in all three dialects: a state and a byte go in, the next state comes out, or that the
// cell stops before the byte or refuses it. Each step is the definition's step of the same state (model's specs/rules/Cell.antt), with
// its tests in the same order; the prover finds their proofs by itself.
//
// `ByteClass` leaves most functions on the path of a byte with one call site, so that the compiler inlines them into the loop that calls
// them; `make benchmark` measures the effect.
#![tactic(auto, unfolding(model::specs::rules::Base::base_computes, model::specs::rules::Cell::cell_computes))]

ghost use Rattle.std.specs.Prelude.{◌≡◌, ◌||◌, MatchOption};
ghost use Rattle.model.specs.rules.Base.{◌is◌, CR, LF};
ghost use Rattle.model.specs.rules.Dialect.{delimiter_of, quote_of};
ghost use Rattle.model.specs.rules.Cell.{first_byte, quoted_byte, cell_step};
ghost use Rattle.cell_lexer.specs.ByteClass.{cell_step_of, outside_quotes, doubled_byte};

use crate::values::{
    after_hex, after_letter, csvj_first, escape_step, is_hex, letter_of, numeral_step, tdif_first,
};
use model::{ByteFault, Cell, CellStep, Char, Delimiter, Dialect, HexLeft, Quote, Word};

pub mod values;

pub fn delimiter_of(d: Dialect) -> u8
    ensures { result ≡ delimiter_of d }
{
    match d {
        Dialect::Csvj | Dialect::Tdif => b',',
        Dialect::CsvPlus(s) => match s.delimiter {
            Delimiter::Comma => b',',
            Delimiter::Semicolon => b';',
            Delimiter::Tab => b'\t',
            Delimiter::Bar => b'|',
        },
    }
}

pub fn quote_of(d: Dialect) -> u8
    ensures { result ≡ quote_of d }
{
    match d {
        Dialect::Csvj | Dialect::Tdif => b'"',
        Dialect::CsvPlus(s) => match s.quote {
            Quote::Double => b'"',
            Quote::Single => b'\'',
        },
    }
}

fn is_separator(d: Dialect, b: u8) -> bool
    ensures { result ≡ (b is delimiter_of d || b is CR || b is LF) }
{
    b == delimiter_of(d) || b == b'\r' || b == b'\n'
}

// What a byte does to a cell, or the text whose UTF-8 state decides it.
#[derive(Clone, Copy)]
enum ByteClass {
    Is(CellStep),
    InQuotes(Char),
    InPlain(Char),
}

// Outside quotes, where a quote has one meaning at a cell's first byte and another after it. Inlined into both its callers.
#[inline(always)]
#[tactic(auto, using(model::proofs::Tests::tests, model::proofs::cell_laws::Utf8::ascii_whole), unfolding(model::specs::rules::Base::base_computes))]
fn classify_plain(d: Dialect, b: u8, at_quote: CellStep) -> ByteClass
    ensures { cell_step_of result b ≡ outside_quotes d at_quote b }
{
    if b == quote_of(d) {
        ByteClass::Is(at_quote)
    } else if is_separator(d, b) {
        ByteClass::Is(CellStep::Stop)
    } else if b < 0x80 {
        ByteClass::Is(CellStep::More(Cell::Plain(Char::Whole)))
    } else {
        ByteClass::InPlain(Char::Whole)
    }
}

fn classify_first(d: Dialect, b: u8) -> ByteClass
    ensures { cell_step_of result b ≡ first_byte d b }
{
    match d {
        Dialect::Csvj => ByteClass::Is(csvj_first(b)),
        Dialect::Tdif => ByteClass::Is(tdif_first(b)),
        Dialect::CsvPlus(_) => classify_plain(d, b, CellStep::More(Cell::Quoted(Char::Whole))),
    }
}

fn csvj_quoted(b: u8) -> ByteClass
    ensures { cell_step_of result b ≡ quoted_byte Dialect.Csvj b }
{
    match b {
        b'"' => ByteClass::Is(CellStep::More(Cell::Complete)),
        b'\\' => ByteClass::Is(CellStep::More(Cell::Escape)),
        0..=0x1F => ByteClass::Is(CellStep::Refuse(ByteFault::Syntax)),
        _ => ByteClass::InQuotes(Char::Whole),
    }
}

// Between quotes that may be doubled.
fn doubled_quoted(quote: u8, b: u8) -> ByteClass
    ensures { cell_step_of result b ≡ doubled_byte quote b }
{
    if b == quote {
        ByteClass::Is(CellStep::More(Cell::Closed))
    } else {
        ByteClass::InQuotes(Char::Whole)
    }
}

fn classify_quoted(d: Dialect, b: u8) -> ByteClass
    ensures { cell_step_of result b ≡ quoted_byte d b }
{
    match d {
        Dialect::Csvj => csvj_quoted(b),
        Dialect::Tdif => doubled_quoted(b'"', b),
        Dialect::CsvPlus(_) => doubled_quoted(quote_of(d), b),
    }
}

fn classify_closed(d: Dialect, b: u8) -> ByteClass
    ensures { cell_step_of result b ≡ cell_step d Cell.Closed b }
{
    if b == quote_of(d) {
        ByteClass::Is(CellStep::More(Cell::Quoted(Char::Whole)))
    } else {
        ByteClass::Is(CellStep::Stop)
    }
}

fn classify_hex(n: HexLeft, b: u8) -> ByteClass
    ensures { cell_step_of result b ≡ cell_step Dialect.Csvj (Cell.Hex n) b }
{
    if is_hex(b) {
        ByteClass::Is(CellStep::More(after_hex(n)))
    } else {
        ByteClass::Is(CellStep::Refuse(ByteFault::Syntax))
    }
}

fn classify_word(w: Word, b: u8) -> ByteClass
    ensures { cell_step_of result b ≡ cell_step Dialect.Csvj (Cell.InWord w) b }
{
    if b == letter_of(w) {
        ByteClass::Is(CellStep::More(after_letter(w)))
    } else {
        ByteClass::Is(CellStep::Refuse(ByteFault::Syntax))
    }
}

fn classify_text(d: Dialect, t: Char, b: u8) -> ByteClass
    ensures { cell_step_of result b ≡ cell_step d (Cell.Quoted t) b }
{
    match t {
        Char::Whole => classify_quoted(d, b),
        Char::Within(i) => ByteClass::InQuotes(Char::Within(i)),
    }
}

fn classify_plain_text(d: Dialect, t: Char, b: u8) -> ByteClass
    ensures { cell_step_of result b ≡ cell_step d (Cell.Plain t) b }
{
    match t {
        Char::Whole => classify_plain(d, b, CellStep::Refuse(ByteFault::Syntax)),
        Char::Within(i) => ByteClass::InPlain(Char::Within(i)),
    }
}

fn classify(d: Dialect, c: Cell, b: u8) -> ByteClass
    ensures { cell_step_of result b ≡ cell_step d c b }
{
    match c {
        Cell::Fresh => classify_first(d, b),
        Cell::Quoted(t) => classify_text(d, t, b),
        Cell::Closed => classify_closed(d, b),
        Cell::Escape => ByteClass::Is(escape_step(b)),
        Cell::Hex(n) => classify_hex(n, b),
        Cell::InNumber(n) => ByteClass::Is(numeral_step(n, b)),
        Cell::InWord(w) => classify_word(w, b),
        Cell::Plain(t) => classify_plain_text(d, t, b),
        Cell::Complete => ByteClass::Is(CellStep::Stop),
    }
}

// The step by a byte of text.
#[inline(always)]
fn text_byte<F: FnOnce(Char) -> Cell>(cell: F, next: Option<Char>) -> CellStep
    requires { F.IsAlwaysCallable cell }
    ensures { MatchOption next (result ≡ CellStep.Refuse ByteFault.Encoding) (λ c. (x : _) × F.post cell c x × (result ≡ CellStep.More x)) }
{
    match next {
        Some(c) => CellStep::More(cell(c)),
        None => CellStep::Refuse(ByteFault::Encoding),
    }
}

// The next byte of a cell.
pub fn cell_step(d: Dialect, c: Cell, b: u8) -> CellStep
    ensures { result ≡ cell_step d c b }
{
    match classify(d, c, b) {
        ByteClass::Is(step) => step,
        ByteClass::InQuotes(t) => text_byte(Cell::Quoted, utf8::char_step(t, b)),
        ByteClass::InPlain(t) => text_byte(Cell::Plain, utf8::char_step(t, b)),
    }
}
