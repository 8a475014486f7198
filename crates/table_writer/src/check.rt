// Whether the lists that the writer is given are a table (error 12 otherwise): all of one length, which is columns times records, and in
// each cell's span bytes that a cell of its kind can have. content.rt decides which bytes are content.
//
// The definition is `rows_in` of model's specs/rules/Api.antt. Where it has records, they are the cells of the lists (cell_decoder's
// specs/Sources.antt), record by record: proofs/Tables.antt.
ghost use Rattle.std.specs.Prelude.{◌≡◌, ◌*◌, eqb, length};
ghost use Rattle.std.specs.Prelude.{Ok};
ghost use Rattle.model.specs.declared.Dialect.TheVariants.{Csvj};
ghost use Rattle.model.specs.rules.Decode.{kind_of, validate_cell};
ghost use Rattle.model.specs.rules.Api.{is_number, is_value, table_cell, table_cells, rows_in};
ghost use Rattle.table_writer.specs.TableParts.{given, is_there};

use cell_decoder::validate;
use codes::cell;
use model::{Dialect, Kind};

// ---- cells

fn is_number_kind(k: Kind) -> bool
    ensures { result ≡ is_number k (Ok tt) }
{
    matches!(k, Kind::Number)
}

// Whether bytes are a number as spelt.
fn is_number(s: &[u8]) -> bool
    ensures { result ≡ is_number (kind_of Csvj s.now) (validate_cell Csvj s.now) }
{
    is_number_kind(cell::kind_of(Dialect::Csvj, s))
        && validate::validate_cell(Dialect::Csvj, s).is_ok()
}

// Whether bytes can be the content of this kind.
fn is_value(k: Kind, s: &[u8]) -> bool
    ensures { result ≡ is_value k s.now }
{
    match k {
        Kind::Text => crate::content::is_content(s),
        Kind::Number => is_number(s),
        Kind::True | Kind::False | Kind::Null => s.is_empty(),
    }
}

// Whether the cell in this span, of the kind with this number, is valid.
#[tactic(auto, using(crate::proofs::Tables::cell_unknown, crate::proofs::Tables::cell_known, crate::proofs::Tables::cell_backward, crate::proofs::Tables::cell_beyond))]
fn is_cell(content: &[u8], from: usize, upto: usize, kind: u8) -> bool
    ensures { result ≡ is_there (table_cell content.now from upto kind) }
{
    match Kind::try_from(kind) {
        Ok(k) if from <= upto && upto <= content.len() => is_value(k, &content[from..upto]),
        _ => false,
    }
}

// ---- tables

// Whether each cell of these lists is valid.
#[tactic(auto, using(crate::proofs::Tables::cells_here, crate::proofs::Tables::cells_next, crate::proofs::Tables::cells_end))]
fn are_cells(content: &[u8], starts: &[usize], ends: &[usize], kinds: &[u8]) -> bool
    requires { (length starts.now ≡ length ends.now) × (length starts.now ≡ length kinds.now) }
    ensures { result ≡ is_there (table_cells content.now starts.now ends.now kinds.now) }
{
    // By place: the C interface lends a cell's span and kind as three lists.
    for n in 0..starts.len() {
        if !is_cell(content, starts[n], ends[n], kinds[n]) {
            return false;
        }
    }
    true
}

// Whether `cells` is columns times records, a product that may overflow.
#[tactic(auto, using(crate::proofs::Products::not_whole))]
fn is_product(cells: usize, columns: usize, records: usize) -> bool
    ensures { result ≡ eqb cells (columns * records) }
{
    if columns == 0 {
        return cells == 0;
    }
    cells % columns == 0 && cells / columns == records
}

// Whether the lists are a table. `records` counts the header.
#[tactic(auto, using(crate::proofs::Tables::no_ends, crate::proofs::Tables::no_kinds, crate::proofs::Tables::no_record, crate::proofs::Tables::no_product, crate::proofs::Tables::by_cells))]
pub fn is_table(
    content: &[u8],
    starts: &[usize],
    ends: &[usize],
    kinds: &[u8],
    columns: usize,
    records: usize,
) -> bool
    ensures { result ≡ is_there (rows_in (given content.now starts.now ends.now kinds.now columns records)) }
{
    if starts.len() != ends.len() || starts.len() != kinds.len() || records == 0 {
        return false;
    }
    is_product(starts.len(), columns, records) && are_cells(content, starts, ends, kinds)
}
