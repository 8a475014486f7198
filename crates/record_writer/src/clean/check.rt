// Whether a cell is verbatim, by its bytes, eight to a step. The definition is `CleanCell` of cell_fast's specs/Ends.antt.
ghost use Rattle.std.specs.Prelude.{◌≡◌, true};
ghost use Rattle.model.specs.declared.Dialect.{Dialect as TheDialect};
ghost use Rattle.model.specs.rules.Base.{QUOTE};
ghost use Rattle.model.specs.rules.Dialect.{quote_of};
ghost use Rattle.model.specs.rules.Cell.{may_be_empty};
ghost use Rattle.cell_fast.specs.Ends.{CleanCell};

use crate::{quotes, words};
use model::Dialect;

// Whether the dialect has texts without quotation marks: codes keeps its table of the same cases to itself.
pub fn may_be_bare(d: Dialect) -> bool
    ensures { result ≡ may_be_empty d }
{
    match d {
        Dialect::Csvj | Dialect::Tdif => false,
        Dialect::CsvPlus(_) => true,
    }
}

// `bare`: the dialect has texts without quotation marks.
pub fn is_clean(bare: bool, raw: &[u8]) -> bool
    ensures { (d : TheDialect) → quote_of d ≡ QUOTE → bare ≡ may_be_empty d → result ≡ true → CleanCell d raw.now }
{
    let around = quotes::quotes_around(raw);
    if around == 0 && !bare {
        return false;
    }
    words::all_words(raw, around, raw.len() - around, |w| swar::unclean_text(w))
}
