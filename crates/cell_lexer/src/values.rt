// The values of CSVJ and the null of TDIF: the step of a number, a word or an escape by a byte, and of the first byte of a cell. Each is
// the definition's step of the same state (model's specs/rules/Cell.antt), with its tests in the same order.
ghost use Rattle.std.specs.Prelude.{◌≡◌};
ghost use Rattle.model.specs.declared.Dialect.TheVariants.{Csvj, Tdif};
ghost use Rattle.model.specs.rules.Base.{choose◌then◌else◌};
ghost use Rattle.model.specs.rules.Cell.{is_digit, is_hex, is_short, numeral_step, letter_of, after_letter, after_hex, first_byte, cell_step};

use model::{ByteFault, Cell, CellStep, Char, HexLeft, Numeral, Word};

pub fn is_digit(b: u8) -> bool
    ensures { result ≡ is_digit b }
{
    b.is_ascii_digit()
}

pub fn is_hex(b: u8) -> bool
    ensures { result ≡ is_hex b }
{
    b.is_ascii_hexdigit()
}

pub fn is_short(b: u8) -> bool
    ensures { result ≡ is_short b }
{
    matches!(b, b'"' | b'\\' | b'/' | b'b' | b'f' | b'n' | b'r' | b't')
}

// After the digits before a point or an exponent (§3.5).
fn after_integer(b: u8) -> CellStep
    ensures { result ≡ numeral_step Numeral.Zero b }
{
    match b {
        b'.' => CellStep::More(Cell::InNumber(Numeral::Point)),
        b'e' | b'E' => CellStep::More(Cell::InNumber(Numeral::E)),
        _ => CellStep::Stop,
    }
}

fn after_fraction(b: u8) -> CellStep
    ensures { result ≡ numeral_step Numeral.Fraction b }
{
    match b {
        b'0'..=b'9' => CellStep::More(Cell::InNumber(Numeral::Fraction)),
        b'e' | b'E' => CellStep::More(Cell::InNumber(Numeral::E)),
        _ => CellStep::Stop,
    }
}

fn after_e(b: u8) -> CellStep
    ensures { result ≡ numeral_step Numeral.E b }
{
    match b {
        b'0'..=b'9' => CellStep::More(Cell::InNumber(Numeral::Exponent)),
        b'+' | b'-' => CellStep::More(Cell::InNumber(Numeral::ESign)),
        _ => CellStep::Refuse(ByteFault::Syntax),
    }
}

// A digit, or the step without one.
fn digit_or(b: u8, next: Numeral, otherwise: CellStep) -> CellStep
    ensures { result ≡ (choose is_digit b then CellStep.More (Cell.InNumber next) else otherwise) }
{
    if b.is_ascii_digit() {
        CellStep::More(Cell::InNumber(next))
    } else {
        otherwise
    }
}

pub fn numeral_step(n: Numeral, b: u8) -> CellStep
    ensures { result ≡ numeral_step n b }
{
    match n {
        Numeral::Minus => match b {
            b'0' => CellStep::More(Cell::InNumber(Numeral::Zero)),
            b'1'..=b'9' => CellStep::More(Cell::InNumber(Numeral::Integer)),
            _ => CellStep::Refuse(ByteFault::Syntax),
        },
        Numeral::Zero => after_integer(b),
        Numeral::Integer => {
            if b.is_ascii_digit() {
                CellStep::More(Cell::InNumber(Numeral::Integer))
            } else {
                after_integer(b)
            }
        }
        Numeral::Point => digit_or(b, Numeral::Fraction, CellStep::Refuse(ByteFault::Syntax)),
        Numeral::Fraction => after_fraction(b),
        Numeral::E => after_e(b),
        Numeral::ESign => digit_or(b, Numeral::Exponent, CellStep::Refuse(ByteFault::Syntax)),
        Numeral::Exponent => digit_or(b, Numeral::Exponent, CellStep::Stop),
    }
}

pub fn letter_of(w: Word) -> u8
    ensures { result ≡ letter_of w }
{
    match w {
        Word::T => b'r',
        Word::F => b'a',
        Word::Tr | Word::N => b'u',
        Word::Tru | Word::Fals => b'e',
        Word::Fa | Word::Nu | Word::Nul => b'l',
        Word::Fal => b's',
        Word::Backslash => b'N',
    }
}

pub fn after_letter(w: Word) -> Cell
    ensures { result ≡ after_letter w }
{
    match w {
        Word::T => Cell::InWord(Word::Tr),
        Word::Tr => Cell::InWord(Word::Tru),
        Word::F => Cell::InWord(Word::Fa),
        Word::Fa => Cell::InWord(Word::Fal),
        Word::Fal => Cell::InWord(Word::Fals),
        Word::N => Cell::InWord(Word::Nu),
        Word::Nu => Cell::InWord(Word::Nul),
        Word::Tru | Word::Fals | Word::Nul | Word::Backslash => Cell::Complete,
    }
}

pub fn after_hex(n: HexLeft) -> Cell
    ensures { result ≡ after_hex n }
{
    match n {
        HexLeft::Four => Cell::Hex(HexLeft::Three),
        HexLeft::Three => Cell::Hex(HexLeft::Two),
        HexLeft::Two => Cell::Hex(HexLeft::One),
        HexLeft::One => Cell::Quoted(Char::Whole),
    }
}

pub fn escape_step(b: u8) -> CellStep
    ensures { result ≡ cell_step Csvj Cell.Escape b }
{
    if is_short(b) {
        CellStep::More(Cell::Quoted(Char::Whole))
    } else if b == b'u' {
        CellStep::More(Cell::Hex(HexLeft::Four))
    } else {
        CellStep::Refuse(ByteFault::Syntax)
    }
}

pub fn csvj_first(b: u8) -> CellStep
    ensures { result ≡ first_byte Csvj b }
{
    match b {
        b'"' => CellStep::More(Cell::Quoted(Char::Whole)),
        b'-' => CellStep::More(Cell::InNumber(Numeral::Minus)),
        b'0' => CellStep::More(Cell::InNumber(Numeral::Zero)),
        b'1'..=b'9' => CellStep::More(Cell::InNumber(Numeral::Integer)),
        b't' => CellStep::More(Cell::InWord(Word::T)),
        b'f' => CellStep::More(Cell::InWord(Word::F)),
        b'n' => CellStep::More(Cell::InWord(Word::N)),
        _ => CellStep::Refuse(ByteFault::Syntax),
    }
}

pub fn tdif_first(b: u8) -> CellStep
    ensures { result ≡ first_byte Tdif b }
{
    match b {
        b'"' => CellStep::More(Cell::Quoted(Char::Whole)),
        b'\\' => CellStep::More(Cell::InWord(Word::Backslash)),
        _ => CellStep::Refuse(ByteFault::Syntax),
    }
}
