// UTF-8: a text validated a byte at a time, and code points packed into bytes. A state and the next byte go in, and the next state comes
// out, or that the text is broken; a code point goes in, and its bytes come out. The definitions are those of model's
// specs/rules/Utf8.antt (char_step, pack, joined); specs/Codes.antt says what is returned for a number that is no code point.
//
// The prover compares the table with the definition's rows: a row that changes in both needs no new proof.
#![tactic(auto)]

ghost use Rattle.std.specs.Prelude.{◌≡◌, ◌+◌, ◌%◌};
ghost use Rattle.model.specs.rules.Base.{choose◌then◌else◌, within};
ghost use Rattle.model.specs.rules.Utf8.{leads, lead_byte, inner_step, char_step, is_later};
ghost use Rattle.model.specs.declared.Inner.TheVariants.{Second};
ghost use Rattle.utf8.specs.Codes.{packed, Joins};
ghost use Rattle.utf8.specs.Table.{IsRow, RowFor};

use buffer::short::Short;
use model::{Char, Inner, Lead};

pub mod multibyte;

// ---- the table

// A row of the rules' table of first and second bytes (§2.11): the first bytes, the character's length, and the range of its second byte.
#[derive(Clone, Copy)]
pub struct Row {
    pub lead: Lead,
    pub first: u8,
    pub last: u8,
    pub length: u8,
    pub low: u8,
    pub high: u8,
}

impl Row {
    pub fn has_second(self, b: u8) -> bool
        ensures { result ≡ within self.low self.high b }
    {
        (self.low..=self.high).contains(&b)
    }
}

// The table from its second row on. Rows ascend without gaps: a first byte that is above a row and not above the next is in the next.
pub const ROWS: [Row; 8] = [
    Row {
        lead: Lead::C2ToDf,
        first: 0xC2,
        last: 0xDF,
        length: 2,
        low: 0x80,
        high: 0xBF,
    },
    Row {
        lead: Lead::E0,
        first: 0xE0,
        last: 0xE0,
        length: 3,
        low: 0xA0,
        high: 0xBF,
    },
    Row {
        lead: Lead::E1ToEc,
        first: 0xE1,
        last: 0xEC,
        length: 3,
        low: 0x80,
        high: 0xBF,
    },
    Row {
        lead: Lead::Ed,
        first: 0xED,
        last: 0xED,
        length: 3,
        low: 0x80,
        high: 0x9F,
    },
    Row {
        lead: Lead::EeToEf,
        first: 0xEE,
        last: 0xEF,
        length: 3,
        low: 0x80,
        high: 0xBF,
    },
    Row {
        lead: Lead::F0,
        first: 0xF0,
        last: 0xF0,
        length: 4,
        low: 0x90,
        high: 0xBF,
    },
    Row {
        lead: Lead::F1ToF3,
        first: 0xF1,
        last: 0xF3,
        length: 4,
        low: 0x80,
        high: 0xBF,
    },
    Row {
        lead: Lead::F4,
        first: 0xF4,
        last: 0xF4,
        length: 4,
        low: 0x80,
        high: 0x8F,
    },
];

// The row of a name.
#[tactic(auto, unfolding(model::specs::rules::Utf8::row_of))]
fn row_of(l: Lead) -> Row
    ensures { IsRow l result }
{
    match l {
        Lead::C2ToDf => ROWS[0],
        Lead::E0 => ROWS[1],
        Lead::E1ToEc => ROWS[2],
        Lead::Ed => ROWS[3],
        Lead::EeToEf => ROWS[4],
        Lead::F0 => ROWS[5],
        Lead::F1ToF3 => ROWS[6],
        Lead::F4 => ROWS[7],
    }
}

// The row of a first byte. Each row is indexed by a constant, so that its entries become immediate operands.
#[inline(always)]
#[tactic(auto, unfolding(model::specs::rules::Utf8::row_of, model::specs::rules::Utf8::leads, model::specs::rules::Utf8::lead_byte, model::specs::rules::Base::base_computes))]
pub fn row_for(b: u8) -> Option<Row>
    ensures { RowFor b result }
{
    if b < ROWS[0].first {
        None
    } else if b <= ROWS[0].last {
        Some(ROWS[0])
    } else if b <= ROWS[1].last {
        Some(ROWS[1])
    } else if b <= ROWS[2].last {
        Some(ROWS[2])
    } else if b <= ROWS[3].last {
        Some(ROWS[3])
    } else if b <= ROWS[4].last {
        Some(ROWS[4])
    } else if b <= ROWS[5].last {
        Some(ROWS[5])
    } else if b <= ROWS[6].last {
        Some(ROWS[6])
    } else if b <= ROWS[7].last {
        Some(ROWS[7])
    } else {
        None
    }
}

// Bytes after the second have the same range in every row.
pub fn is_later(b: u8) -> bool
    ensures { result ≡ is_later b }
{
    matches!(b, 0x80..=0xBF)
}

// ---- a text, a byte at a time

// The first byte of a multibyte character.
fn lead_byte(b: u8) -> Option<Char>
    ensures { result ≡ lead_byte leads b }
{
    let row = row_for(b)?;
    Some(Char::Within(Inner::Second(row.lead)))
}

// The second byte of a character of this row.
fn second_byte(l: Lead, b: u8) -> Option<Char>
    ensures { result ≡ inner_step (Second l) b }
{
    let row = row_of(l);
    if !row.has_second(b) {
        return None;
    }
    match row.length {
        2 => Some(Char::Whole),
        3 => Some(Char::Within(Inner::Last)),
        _ => Some(Char::Within(Inner::LastTwo)),
    }
}

// A byte after the second, and the state after it.
fn later_byte(b: u8, after: Char) -> Option<Char>
    ensures { result ≡ (choose is_later b then Some after else None) }
{
    if is_later(b) { Some(after) } else { None }
}

// The next byte of a text. ASCII is tested before the table is searched.
pub fn char_step(c: Char, b: u8) -> Option<Char>
    ensures { result ≡ char_step c b }
{
    match c {
        Char::Whole => {
            if b < 0x80 {
                Some(Char::Whole)
            } else {
                lead_byte(b)
            }
        }
        Char::Within(i) => match i {
            Inner::Second(l) => second_byte(l, b),
            Inner::LastTwo => later_byte(b, Char::Within(Inner::Last)),
            Inner::Last => later_byte(b, Char::Whole),
        },
    }
}

// ---- code points

// The low six bits as a continuation byte.
fn six_bits(u: u32) -> u8
    ensures { result ≡ 0x80 + u % 0x40 }
{
    ((u & 0x3F) | 0x80) as u8
}

// The bytes of a code point, also of a surrogate. A number that is no code point has none.
pub fn pack(u: u32) -> Short<4>
    ensures { result ≡ packed u }
{
    match u {
        0..=0x7F => Short::new([u as u8, 0, 0, 0], 1),
        0x80..=0x7FF => {
            let lead = ((u >> 6) | 0xC0) as u8;
            Short::new([lead, six_bits(u), 0, 0], 2)
        }
        0x800..=0xFFFF => {
            let lead = ((u >> 12) | 0xE0) as u8;
            Short::new([lead, six_bits(u >> 6), six_bits(u), 0], 3)
        }
        0x10000..=0x10FFFF => {
            let lead = ((u >> 18) | 0xF0) as u8;
            Short::new([lead, six_bits(u >> 12), six_bits(u >> 6), six_bits(u)], 4)
        }
        _ => Short::new([0, 0, 0, 0], 0),
    }
}

// The code point of a surrogate pair: ten bits of each (§2.8).
pub fn joined(high: u32, low: u32) -> u32
    ensures { Joins high low result }
{
    0x10000 + (((high & 0x3FF) << 10) | (low & 0x3FF))
}
