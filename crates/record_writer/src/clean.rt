// Records of verbatim cells: texts whose content is their raw bytes, without quotation marks or between two. quoted.rt writes such a
// record into a target that quotes every text, plus.rt into CSV+, and neither looks at a cell byte by byte. Here: whether a record is one,
// where the scanner has not found it out. The definition is `CleanIn` of cell_fast's specs/Ends.antt.
ghost use Rattle.std.specs.Prelude.{◌≡◌, true};
ghost use Rattle.cell_decoder.specs.declared.source.Source.TheVariants.{File};
ghost use Rattle.cell_fast.specs.Ends.{CleanIn};
ghost use Rattle.record_writer.specs.CleanRecord.{CleanRecord};
ghost use Rattle.record_writer.specs.Joined.{Parts};

use model::Dialect;

mod check;
pub mod plus;
pub mod quoted;
pub(crate) mod quotes;

// Whether each cell of a record is verbatim. The first that is not ends the loop.
fn is_clean(d: Dialect, s: &[u8], starts: &[usize], ends: &[usize]) -> bool
    requires { Parts s.now starts.now ends.now }
    ensures { result ≡ true → CleanIn d s.now starts.now ends.now }
{
    if cell_lexer::quote_of(d) != b'"' {
        return false;
    }
    let bare = check::may_be_bare(d);
    // By place: a span's start and end are in two lists.
    for n in 0..starts.len() {
        let from = starts[n];
        let upto = ends[n];
        if !check::is_clean(bare, &s[from..upto]) {
            return false;
        }
    }
    true
}

// Whether a record of a file is clean: no header, and each cell verbatim.
pub fn is_clean_record(d: Dialect, s: &[u8], starts: &[usize], ends: &[usize], header: bool) -> bool
    requires { Parts s.now starts.now ends.now }
    ensures { result ≡ true → CleanRecord s.now starts.now ends.now (File d) header }
{
    if header {
        return false;
    }
    is_clean(d, s, starts, ends)
}
