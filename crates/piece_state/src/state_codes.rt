// Lexer states as numbers, so that a saved state is plain numbers. Every number decodes to some state, and the number of a state to that
// state. Definitions: specs/Codes.antt. A new state needs a number of its own, and `state_back` of proofs/Codes.antt again. They are
// functions, not `From`: the states are model's, and an impl for them would have to be there. Each pair is a table of one enum, for which a
// match is plainest.
ghost use Rattle.std.specs.Prelude.{◌≡◌};
ghost use Rattle.piece_state.specs.Codes.{lead_number, lead_from, inner_number, inner_from, char_number, char_from, hex_number, hex_from, numeral_number, numeral_from, word_number, word_from, cell_number, cell_from, state_number, state_from};

use model::{Cell, Char, FileState, HexLeft, Inner, Lead, Numeral, Word};

// ---- characters

fn lead_number(l: Lead) -> usize
    ensures { result ≡ lead_number l }
{
    match l {
        Lead::C2ToDf => 0,
        Lead::E0 => 1,
        Lead::E1ToEc => 2,
        Lead::Ed => 3,
        Lead::EeToEf => 4,
        Lead::F0 => 5,
        Lead::F1ToF3 => 6,
        Lead::F4 => 7,
    }
}

fn lead_of(n: usize) -> Lead
    ensures { result ≡ lead_from n }
{
    match n {
        0 => Lead::C2ToDf,
        1 => Lead::E0,
        2 => Lead::E1ToEc,
        3 => Lead::Ed,
        4 => Lead::EeToEf,
        5 => Lead::F0,
        6 => Lead::F1ToF3,
        _ => Lead::F4,
    }
}

fn inner_number(i: Inner) -> usize
    ensures { result ≡ inner_number i }
{
    match i {
        Inner::Last => 0,
        Inner::LastTwo => 1,
        Inner::Second(l) => 2 + lead_number(l),
    }
}

fn inner_of(n: usize) -> Inner
    ensures { result ≡ inner_from n }
{
    match n {
        0 => Inner::Last,
        1 => Inner::LastTwo,
        _ => Inner::Second(lead_of(n - 2)),
    }
}

fn char_number(t: Char) -> usize
    ensures { result ≡ char_number t }
{
    match t {
        Char::Whole => 0,
        Char::Within(i) => 1 + inner_number(i),
    }
}

fn char_of(n: usize) -> Char
    ensures { result ≡ char_from n }
{
    match n {
        0 => Char::Whole,
        _ => Char::Within(inner_of(n - 1)),
    }
}

// ---- cells

fn hex_number(h: HexLeft) -> usize
    ensures { result ≡ hex_number h }
{
    match h {
        HexLeft::Four => 0,
        HexLeft::Three => 1,
        HexLeft::Two => 2,
        HexLeft::One => 3,
    }
}

fn hex_of(n: usize) -> HexLeft
    ensures { result ≡ hex_from n }
{
    match n {
        0 => HexLeft::Four,
        1 => HexLeft::Three,
        2 => HexLeft::Two,
        _ => HexLeft::One,
    }
}

fn numeral_number(m: Numeral) -> usize
    ensures { result ≡ numeral_number m }
{
    match m {
        Numeral::Minus => 0,
        Numeral::Zero => 1,
        Numeral::Integer => 2,
        Numeral::Point => 3,
        Numeral::Fraction => 4,
        Numeral::E => 5,
        Numeral::ESign => 6,
        Numeral::Exponent => 7,
    }
}

fn numeral_of(n: usize) -> Numeral
    ensures { result ≡ numeral_from n }
{
    match n {
        0 => Numeral::Minus,
        1 => Numeral::Zero,
        2 => Numeral::Integer,
        3 => Numeral::Point,
        4 => Numeral::Fraction,
        5 => Numeral::E,
        6 => Numeral::ESign,
        _ => Numeral::Exponent,
    }
}

fn word_number(w: Word) -> usize
    ensures { result ≡ word_number w }
{
    match w {
        Word::T => 0,
        Word::Tr => 1,
        Word::Tru => 2,
        Word::F => 3,
        Word::Fa => 4,
        Word::Fal => 5,
        Word::Fals => 6,
        Word::N => 7,
        Word::Nu => 8,
        Word::Nul => 9,
        Word::Backslash => 10,
    }
}

fn word_of(n: usize) -> Word
    ensures { result ≡ word_from n }
{
    match n {
        0 => Word::T,
        1 => Word::Tr,
        2 => Word::Tru,
        3 => Word::F,
        4 => Word::Fa,
        5 => Word::Fal,
        6 => Word::Fals,
        7 => Word::N,
        8 => Word::Nu,
        9 => Word::Nul,
        _ => Word::Backslash,
    }
}

fn cell_number(c: Cell) -> usize
    ensures { result ≡ cell_number c }
{
    match c {
        Cell::Fresh => 0,
        Cell::Closed => 1,
        Cell::Escape => 2,
        Cell::Complete => 3,
        Cell::Quoted(t) => 16 + char_number(t),
        Cell::Plain(t) => 32 + char_number(t),
        Cell::Hex(h) => 48 + hex_number(h),
        Cell::InNumber(m) => 64 + numeral_number(m),
        Cell::InWord(w) => 80 + word_number(w),
    }
}

fn cell_of(n: usize) -> Cell
    ensures { result ≡ cell_from n }
{
    match n {
        0 => Cell::Fresh,
        1 => Cell::Closed,
        2 => Cell::Escape,
        3..16 => Cell::Complete,
        16..32 => Cell::Quoted(char_of(n - 16)),
        32..48 => Cell::Plain(char_of(n - 32)),
        48..64 => Cell::Hex(hex_of(n - 48)),
        64..80 => Cell::InNumber(numeral_of(n - 64)),
        _ => Cell::InWord(word_of(n - 80)),
    }
}

// ---- files

pub fn state_number(f: FileState) -> usize
    ensures { result ≡ state_number f }
{
    match f {
        FileState::Top => 0,
        FileState::Begin => 1,
        FileState::Ended => 2,
        FileState::Bom1 => 3,
        FileState::Bom2 => 4,
        FileState::PlainBom1 => 5,
        FileState::PlainBom2 => 6,
        FileState::Blanks => 7,
        FileState::ExpectCell => 8,
        FileState::After => 9,
        FileState::Cr => 10,
        FileState::Comment(t) => 16 + char_number(t),
        FileState::Inside(c) => 32 + cell_number(c),
    }
}

pub fn state_of(n: usize) -> FileState
    ensures { result ≡ state_from n }
{
    match n {
        0 => FileState::Top,
        1 => FileState::Begin,
        2 => FileState::Ended,
        3 => FileState::Bom1,
        4 => FileState::Bom2,
        5 => FileState::PlainBom1,
        6 => FileState::PlainBom2,
        7 => FileState::Blanks,
        8 => FileState::ExpectCell,
        9 => FileState::After,
        10..16 => FileState::Cr,
        16..32 => FileState::Comment(char_of(n - 16)),
        _ => FileState::Inside(cell_of(n - 32)),
    }
}
