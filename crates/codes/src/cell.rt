// Questions about a cell that need no decoding: its kind, from its first byte, and whether it is whole, from the automaton's state. The
// definitions are `kind_of` of model's specs/rules/Decode.antt and `is_whole` of its specs/rules/Cell.antt. Each table is a match: a new
// state or kind is a new arm, and its proof is the file of that function.
ghost use Rattle.std.specs.Prelude.{◌≡◌, get_or};
ghost use Rattle.model.specs.declared.Dialect.TheVariants.{Csvj, Tdif};
ghost use Rattle.model.specs.rules.Cell.{between_characters, may_be_empty, is_numeral, is_whole};
ghost use Rattle.model.specs.rules.Decode.{kind_of};
ghost use Rattle.codes.specs.FirstByte.{kind_by};

use model::{Cell, Char, Dialect, Kind, Numeral};

// ---- kinds

// The first byte, or 0 if there is none. In every dialect 0 leads to the same kind and encoding as no byte.
pub fn first_of(raw: &[u8]) -> u8
    ensures { result ≡ get_or raw.now 0 0 }
{
    raw.first().copied().unwrap_or(0)
}

fn csvj_kind(b: u8) -> Kind
    ensures { result ≡ kind_by Csvj b }
{
    match b {
        b'"' => Kind::Text,
        b't' => Kind::True,
        b'f' => Kind::False,
        b'n' => Kind::Null,
        _ => Kind::Number,
    }
}

fn tdif_kind(b: u8) -> Kind
    ensures { result ≡ kind_by Tdif b }
{
    if b == b'"' { Kind::Text } else { Kind::Null }
}

#[tactic(auto, unfolding(crate::specs::FirstByte::kind_by))]
fn kind_by(d: Dialect, b: u8) -> Kind
    ensures { result ≡ kind_by d b }
{
    match d {
        Dialect::Csvj => csvj_kind(b),
        Dialect::Tdif => tdif_kind(b),
        Dialect::CsvPlus(_) => Kind::Text,
    }
}

// The kind of a cell that is known to be sound (§2.3).
pub fn kind_of(d: Dialect, raw: &[u8]) -> Kind
    ensures { result ≡ kind_of d raw.now }
{
    kind_by(d, first_of(raw))
}

// ---- whole cells

fn may_be_empty(d: Dialect) -> bool
    ensures { result ≡ may_be_empty d }
{
    matches!(d, Dialect::CsvPlus(_))
}

fn is_numeral(n: Numeral) -> bool
    ensures { result ≡ is_numeral n }
{
    match n {
        Numeral::Zero | Numeral::Integer | Numeral::Fraction | Numeral::Exponent => true,
        Numeral::Minus | Numeral::Point | Numeral::E | Numeral::ESign => false,
    }
}

fn between_characters(t: Char) -> bool
    ensures { result ≡ between_characters t }
{
    matches!(t, Char::Whole)
}

// Whether the bytes read so far are a whole cell.
#[tactic(auto, unfolding(model::specs::rules::Cell::is_whole))]
pub fn is_whole(d: Dialect, c: Cell) -> bool
    ensures { result ≡ is_whole d c }
{
    match c {
        Cell::Fresh => may_be_empty(d),
        Cell::Closed | Cell::Complete => true,
        Cell::InNumber(n) => is_numeral(n),
        Cell::Plain(t) => between_characters(t),
        Cell::Quoted(_) | Cell::Escape | Cell::Hex(_) | Cell::InWord(_) => false,
    }
}
