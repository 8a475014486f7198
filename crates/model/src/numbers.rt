// Dialects and kinds by number, as they come in from C and are returned to it.
ghost use Rattle.std.specs.Prelude.{◌≡◌};
ghost use Rattle.std.specs.Result.{result_ok};
ghost use Rattle.model.specs.rules.Dialect.{dialect_of};
ghost use Rattle.model.specs.rules.Decode.{kind_number};
ghost use Rattle.model.specs.rules.Api.{kind_named};

use crate::{Delimiter, Dialect, Kind, Quote, Settings};

// A number that names no dialect.
#[derive(Clone, Copy, Debug, PartialEq, Eq)]
pub struct UnknownDialect(pub u32);

// The dialect that a number names (§1.4).
impl TryFrom<u32> for Dialect {
    type Error = UnknownDialect;

    ghost try_from_gives = { λ n r. result_ok r ≡ dialect_of n };

    fn try_from(number: u32) -> Result<Dialect, UnknownDialect> {
        match number {
            1 => Ok(Dialect::Csvj),
            2 => Ok(Dialect::Tdif),
            3 => Ok(Dialect::CsvPlus(Settings {
                delimiter: Delimiter::Comma,
                quote: Quote::Double,
            })),
            _ => Err(UnknownDialect(number)),
        }
    }
}

// A number that names no kind.
#[derive(Clone, Copy, Debug, PartialEq, Eq)]
pub struct UnknownKind(pub u8);

// The kind that a number names (§2.3).
impl TryFrom<u8> for Kind {
    type Error = UnknownKind;

    ghost try_from_gives = { λ n r. result_ok r ≡ kind_named n };

    fn try_from(number: u8) -> Result<Kind, UnknownKind> {
        match number {
            1 => Ok(Kind::Text),
            2 => Ok(Kind::Number),
            3 => Ok(Kind::True),
            4 => Ok(Kind::False),
            5 => Ok(Kind::Null),
            _ => Err(UnknownKind(number)),
        }
    }
}

// The number of a kind (§2.3).
impl From<Kind> for u8 {
    ghost from_gives = { λ k n. n ≡ kind_number k };

    fn from(k: Kind) -> u8 {
        match k {
            Kind::Text => 1,
            Kind::Number => 2,
            Kind::True => 3,
            Kind::False => 4,
            Kind::Null => 5,
        }
    }
}
