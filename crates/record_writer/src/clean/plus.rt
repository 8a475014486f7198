// Verbatim cells into CSV+ with the quotation mark for a quote: quoted only where the delimiter or an empty only cell requires it (§14.7).
// The definition is `plus_cell` of specs/CleanCellText.antt.
ghost use Rattle.std.specs.Prelude.{◌≡◌, true, ◌++◌, ◌≤◌, eqb, length, drop};
ghost use Rattle.model.specs.rules.Base.{QUOTE, begins, holds};
ghost use Rattle.swar.specs.Words.{is_byte};
ghost use Rattle.buffer.specs.Writes.{Room, WrittenAt};
ghost use Rattle.record_writer.specs.Joined.{before, joined_from, Spans};
ghost use Rattle.record_writer.specs.CleanCellText.{marked, quotes_by, needs_quotes, plus_cell};

use crate::clean::quotes;

// ---- whether a text needs quotation marks

fn holds_from(bs: &[u8], at: usize, p: u8) -> bool
    requires { at ≤ length bs.now }
    ensures { result ≡ holds (is_byte p) (drop at bs.now) }
{
    for i in at..bs.len() {
        if bs[i] == p {
            return true;
        }
    }
    false
}

// The same, eight bytes to a step.
fn holds_byte(bs: &[u8], p: u8) -> bool
    ensures { result ≡ holds (is_byte p) bs.now }
{
    // By place: a step is a word of eight bytes, and the rest is shorter than one.
    let mut i = 0;
    while 8 <= bs.len() - i {
        let same = swar::other_than(swar::word(bs, i), p) ^ 0x8080808080808080;
        if same != 0 {
            return true;
        }
        i += 8;
    }
    holds_from(bs, i, p)
}

fn needs_quotes(bs: &[u8], p: u8, only: bool) -> bool
    ensures { result ≡ needs_quotes p only bs.now }
{
    holds_byte(bs, p) || only && bs.is_empty()
}

// ---- cells

fn write_text(bs: &[u8], p: u8, only: bool, out: &mut [u8], o: usize, write: bool) -> usize
    requires { Room write o (marked (needs_quotes p only bs.now) bs.now) out.old }
    ensures { WrittenAt write out.old o (marked (needs_quotes p only bs.now) bs.now) out.new result }
{
    crate::quotes::write_marked(needs_quotes(bs, p, only), bs, out, o, write)
}

fn quotes_before(raw: &[u8]) -> usize
    ensures { result ≡ quotes_by (begins QUOTE raw.now) }
{
    if quotes::has_quotes(raw) { 1 } else { 0 }
}

fn write_column(
    raw: &[u8],
    n: usize,
    p: u8,
    only: bool,
    out: &mut [u8],
    o: usize,
    write: bool,
) -> usize
    requires in_bounds { begins QUOTE raw.now ≡ true → 2 ≤ length raw.now }
    requires room { Room write o (before p n ++ plus_cell p only raw.now) out.old }
    ensures { WrittenAt write out.old o (before p n ++ plus_cell p only raw.now) out.new result }
{
    let at = quotes::write_delimiter(p, n, out, o, write);
    let from = quotes_before(raw);
    let upto = raw.len() - from;
    write_text(&raw[from..upto], p, only, out, at, write)
}

// Writes the cells at a place of the buffer, or only measures them from there.
pub fn write_csv_plus(
    s: &[u8],
    starts: &[usize],
    ends: &[usize],
    p: u8,
    out: &mut [u8],
    at: usize,
    write: bool,
) -> usize
    requires spans { Spans s.now starts.now ends.now }
    requires room { Room write at (joined_from p (plus_cell p (eqb (length starts.now) 1)) s.now 0 starts.now ends.now) out.old }
    ensures { WrittenAt write out.old at
        (joined_from p (plus_cell p (eqb (length starts.now) 1)) s.now 0 starts.now ends.now)
        out.new result }
{
    let only = starts.len() == 1;
    let mut o = at;
    // By place: only the first cell has no delimiter before it.
    for n in 0..starts.len() {
        let from = starts[n];
        let upto = ends[n];
        o = write_column(&s[from..upto], n, p, only, out, o, write);
    }
    o
}
