// The source's checks of a complete record, in the rules' order (§7.8): columns, then for a header kinds and repeated names (names.rt), for
// a data record the number of its cells. In: the spans and kinds of the cells, raw bytes of a file or contents. Out: the first fault, or
// none.
//
// The definitions are `header_fault` and `data_fault` of model's specs/rules/Records.antt, over the cells of the lists (cell_decoder's
// specs/Sources.antt). A check that changes there changes its function here and its law in proofs/Records.antt.
#![tactic(auto)]

ghost use Rattle.std.specs.Prelude.{◌≡◌, List, length};
ghost use Rattle.model.specs.rules.Text.{Value};
ghost use Rattle.model.specs.rules.Records.{header_fault, data_fault};
ghost use Rattle.cell_decoder.specs.Sources.{cells_in, Cells};
ghost use Rattle.record_check.specs.Kinds.{not_text_from};
ghost use Rattle.record_check.specs.SourceFault.{source_fault};

use cell_decoder::source;
use cell_decoder::source::Source;
use codes::MAX_COLUMNS;
use model::{Dialect, Fault};

pub mod names;

// ---- headers

// The first cell that is not text (§6.7).
fn first_not_text(kinds: &[u8]) -> Result<(), Fault>
    ensures { result ≡ not_text_from 1 kinds.now }
{
    for (n, number) in kinds.iter().enumerate() {
        if !source::is_text(source::kind_of_number(*number)) {
            let column = n + 1;
            return Err(Fault::HeaderKind { column });
        }
    }
    Ok(())
}

// The checks of a header, with names compared by the rule of a dialect.
pub fn header(
    src: Source,
    rule: Dialect,
    s: &[u8],
    starts: &[usize],
    ends: &[usize],
    kinds: &[u8],
) -> Result<(), Fault>
    requires { Cells src s.now starts.now ends.now kinds.now }
    ensures { result ≡ header_fault rule (cells_in src s.now starts.now ends.now kinds.now) }
{
    if MAX_COLUMNS < starts.len() {
        return Err(Fault::TooManyColumns);
    }
    first_not_text(kinds)?;
    match crate::names::first_repeat(src, rule, s, starts, ends) {
        None => Ok(()),
        Some(column) => Err(Fault::RepeatedName { column }),
    }
}

// ---- data records

// The checks of a data record with this number of cells, under a header of `columns` columns. Only the number counts, so a caller need not
// have the cells in lists.
pub fn data(columns: usize, cells: usize) -> Result<(), Fault>
    ensures { (vs : List Value) → length vs ≡ cells → result ≡ data_fault columns vs }
{
    if MAX_COLUMNS < cells {
        return Err(Fault::TooManyColumns);
    }
    if cells != columns {
        return Err(Fault::CellCount);
    }
    Ok(())
}

// ---- records of a source

// The source's checks of a record: of a header by d's rule for names, of a data record under a header of `columns` columns.
pub fn check(
    src: Source,
    d: Dialect,
    s: &[u8],
    starts: &[usize],
    ends: &[usize],
    kinds: &[u8],
    header: bool,
    columns: usize,
) -> Result<(), Fault>
    requires { Cells src s.now starts.now ends.now kinds.now }
    ensures { result ≡ source_fault d header columns
        (cells_in src s.now starts.now ends.now kinds.now) }
{
    if header {
        self::header(src, d, s, starts, ends, kinds)
    } else {
        data(columns, starts.len())
    }
}
