// Verbatim cells into a target that quotes every text. Only the first byte of a cell is tested, and the cell is copied unchanged. Writing
// and measuring are two loops, so that no cell tests which of the two is done. The definition is `quoted_cell` of specs/CleanCellText.antt.
ghost use Rattle.std.specs.Prelude.{◌≡◌, true, ◌++◌, ◌+◌, ◌≤◌, length};
ghost use Rattle.model.specs.rules.Base.{COMMA};
ghost use Rattle.model.specs.rules.Report.{MAXRECORD, MAXFILE};
ghost use Rattle.buffer.specs.Writes.{measure, Room, WrittenAt};
ghost use Rattle.record_writer.specs.Joined.{before, joined_from, Spans};
ghost use Rattle.record_writer.specs.CleanCellText.{quoted_cell};

use crate::clean::quotes;

// ---- writing

// By `copy` and not by `write_marked`, which would test at each cell whether it writes or measures.
fn write_cell(raw: &[u8], out: &mut [u8], o: usize) -> usize
    requires { Room true o (quoted_cell raw.now) out.old }
    ensures { WrittenAt true out.old o (quoted_cell raw.now) out.new result }
{
    let bare = !quotes::has_quotes(raw);
    let from = crate::quotes::write_quote(bare, out, o, true);
    let end = buffer::copy(out, from, raw);
    crate::quotes::write_quote(bare, out, end, true)
}

fn write_column(raw: &[u8], n: usize, out: &mut [u8], o: usize) -> usize
    requires { Room true o (before COMMA n ++ quoted_cell raw.now) out.old }
    ensures { WrittenAt true out.old o (before COMMA n ++ quoted_cell raw.now) out.new result }
{
    let from = quotes::write_delimiter(b',', n, out, o, true);
    write_cell(raw, out, from)
}

fn write(s: &[u8], starts: &[usize], ends: &[usize], out: &mut [u8], at: usize) -> usize
    requires spans { Spans s.now starts.now ends.now }
    requires room { Room true at (joined_from COMMA quoted_cell s.now 0 starts.now ends.now) out.old }
    ensures { WrittenAt true out.old at (joined_from COMMA quoted_cell s.now 0 starts.now ends.now) out.new result }
{
    let mut o = at;
    // By place: only the first cell has no delimiter before it.
    for n in 0..starts.len() {
        let from = starts[n];
        let upto = ends[n];
        o = write_column(&s[from..upto], n, out, o);
    }
    o
}

// ---- measuring

fn cell_length(raw: &[u8]) -> usize
    requires { length raw.now ≤ MAXRECORD }
    ensures { result ≡ length (quoted_cell raw.now) }
{
    if quotes::has_quotes(raw) {
        return raw.len();
    }
    raw.len() + 2
}

fn column_length(raw: &[u8], n: usize) -> usize
    requires { length raw.now ≤ MAXRECORD }
    ensures { result ≡ length (before COMMA n ++ quoted_cell raw.now) }
{
    if n == 0 {
        return cell_length(raw);
    }
    cell_length(raw) + 1
}

fn measure(s: &[u8], starts: &[usize], ends: &[usize], at: usize) -> usize
    requires spans { Spans s.now starts.now ends.now }
    requires at_bound { at ≤ MAXFILE }
    ensures { result ≡ measure (at + length (joined_from COMMA quoted_cell s.now 0 starts.now ends.now)) }
{
    let mut o = at;
    // By place: only the first cell has no delimiter before it.
    for n in 0..starts.len() {
        let from = starts[n];
        let upto = ends[n];
        o = buffer::measured(o, column_length(&s[from..upto], n));
    }
    o
}

// Writes the cells at a place of the buffer, or only measures them from there.
pub fn write_quoted(
    s: &[u8],
    starts: &[usize],
    ends: &[usize],
    out: &mut [u8],
    at: usize,
    write: bool,
) -> usize
    requires spans { Spans s.now starts.now ends.now }
    requires room { Room write at (joined_from COMMA quoted_cell s.now 0 starts.now ends.now) out.old }
    ensures { WrittenAt write out.old at (joined_from COMMA quoted_cell s.now 0 starts.now ends.now) out.new result }
{
    if write {
        self::write(s, starts, ends, out, at)
    } else {
        measure(s, starts, ends, at)
    }
}
