// Whether a verbatim cell is quoted, and the delimiter before it.
ghost use Rattle.std.specs.Prelude.{◌≡◌};
ghost use Rattle.model.specs.rules.Base.{QUOTE, begins};
ghost use Rattle.buffer.specs.Writes.{Room, WrittenAt};
ghost use Rattle.record_writer.specs.Joined.{before};

// Whether a cell is quoted in its file.
pub fn has_quotes(raw: &[u8]) -> bool
    ensures { result ≡ begins QUOTE raw.now }
{
    matches!(raw, [b'"', ..])
}

// The delimiter before the cell at place n, unless it is the first.
pub fn write_delimiter(p: u8, n: usize, out: &mut [u8], o: usize, write: bool) -> usize
    requires { Room write o (before p n) out.old }
    ensures { WrittenAt write out.old o (before p n) out.new result }
{
    if n == 0 {
        return o;
    }
    buffer::emit_byte(out, o, p, write)
}
