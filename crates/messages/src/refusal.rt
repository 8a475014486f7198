// A refusal in words: one sentence for each fault, with the numbers of its report in it. Definition: specs/Sentences.antt, whose forms
// are repeated here; the proof says that they are the same, byte for byte.
ghost use Rattle.std.specs.Prelude.{◌≡◌, ◌+◌, ◌*◌, ◌≤◌, length};
ghost use Rattle.model.specs.rules.Base.{over};
ghost use Rattle.buffer.specs.Writes.{written};
ghost use Rattle.messages.specs.Sentences.{decimal, part_of, filled, form_of, sentence_of};

use model::Report;

// ---- forms

fn write_number(n: usize, out: &mut [u8], o: usize) -> usize
    requires { o + length (decimal n) ≤ length out.old }
    ensures { (result ≡ o + length (decimal n)) × (out.new ≡ written out.old o (decimal n)) }
{
    let mut digits = [0u8; 20];
    let k = io::decimal(n as u64, &mut digits);
    buffer::copy(out, o, &digits[..k])
}

// Writes the text of one byte of a form, from index o on.
fn write_part(e: Report, b: u8, out: &mut [u8], o: usize) -> usize
    requires { o + length (part_of e b) ≤ length out.old }
    ensures { (result ≡ o + length (part_of e b)) × (out.new ≡ written out.old o (part_of e b)) }
{
    match b {
        b'N' => write_number(e.number, out, o),
        b'R' => write_number(e.record_number, out, o),
        b'C' => write_number(e.column, out, o),
        b'B' => write_number(e.offset, out, o),
        _ => {
            out[o] = b;
            o + 1
        }
    }
}

// Writes a form with the numbers of a report in it. None of them has more than 20 digits.
fn fill(e: Report, form: &[u8], out: &mut [u8]) -> usize
    requires { 20 * length form.now ≤ length out.old }
    ensures { (result ≡ length (filled e form.now)) × (out.new ≡ over (filled e form.now) out.old) }
{
    let mut o = 0;
    for b in form {
        o = write_part(e, *b, out, o);
    }
    o
}

// ---- sentences

// The form for the number of a report, for fault 9 by its column.
fn form_of(number: usize, column: usize) -> &'static [u8]
    ensures form { result.now ≡ form_of number column }
    ensures short { 20 * length result.now ≤ 4096 }
{
    match number {
        1 => b"refused (N): the file ends at byte B before record R, the header, begins\n",
        2 => b"refused (N): at record R, byte B is not UTF-8 text\n",
        3 =>
            b"refused (N): at record R, byte B can't stand there in a file of the source dialect\n",
        4 => b"refused (N): the file ends at byte B before record R is complete\n",
        5 =>
            b"refused (N): record R has another number of cells than the header; it begins at byte B\n",
        6 =>
            b"refused (N): record R, the header, has in column C the name of an earlier column; it begins at byte B\n",
        7 =>
            b"refused (N): record R, the header, has no name in column C, where the cell is not text; it begins at byte B\n",
        8 =>
            b"refused (N): at record R, a limit is passed (16,777,215 bytes in a file, 4,096 bytes or 64 columns in a record); byte B is the first too many or, for columns, the record's first\n",
        9 if column == 0 =>
            b"refused (N): record R can't be written in the target dialect, which asks for a column or in which the record or the file gets too long; it begins at byte B\n",
        9 =>
            b"refused (N): column C of record R can't be written in the target dialect, which lacks such a cell or character or takes the name for an earlier one; the record begins at byte B\n",
        _ => b"refused (N): the converter was not called as it has to be\n",
    }
}

// Writes the sentence for a report to the beginning of `out`. Returns its length.
pub fn sentence(e: Report, out: &mut [u8; 4096]) -> usize
    ensures { (result ≡ length (sentence_of e)) × (out.new ≡ over (sentence_of e) out.old) }
{
    fill(e, form_of(e.number, e.column), out)
}
