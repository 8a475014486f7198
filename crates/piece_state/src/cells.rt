// The current record between calls. In: spans of cells that the scanner found in a piece; out: their raw bytes one after another in one
// array, and where each complete cell ends. An end is also the next start, so no starts are saved. Definitions: specs/CurrentRecord.antt;
// the loops are proved by proofs/BufferedLists.antt. Another layout is also one for piece_record and piece_step.
ghost use Rattle.std.specs.Prelude.{◌≡◌, ◌∷◌, ◌+◌, ◌≤◌, length, take};
ghost use Rattle.model.specs.rules.Base.{over};
ghost use Rattle.model.specs.laws.Places.{buffered_bytes, buffered_ends};
ghost use Rattle.buffer.specs.Writes.{written};
ghost use Rattle.piece_state.specs.CurrentRecord.{raw_cells_at, SpansIn, kinds_at};

use codes::cell;
use model::Dialect;

// Appends the cells at indices `from` up to n of the lists, which ended in this piece, to the buffered bytes, and where each of them ends
// then to `ends`. Returns how many bytes are buffered.
pub fn buffer_cells(
    piece: &[u8],
    starts: &[usize],
    stops: &[usize],
    from: usize,
    n: usize,
    bytes: &mut [u8],
    fill: usize,
    ends: &mut [usize],
) -> usize
    requires spans_in { SpansIn piece.now starts.now stops.now from n }
    requires from_le_n { (from ≤ n) × (n ≤ length ends.old) }
    requires n_in_bounds { fill + length (buffered_bytes (raw_cells_at piece.now starts.now stops.now from n)) ≤ length bytes.old }
    ensures value { result ≡ fill + length (buffered_bytes (raw_cells_at piece.now starts.now stops.now from n)) }
    ensures bytes_after { bytes.new ≡ written bytes.old fill (buffered_bytes (raw_cells_at piece.now starts.now stops.now from n)) }
    ensures ends_after { ends.new ≡ written ends.old from (buffered_ends fill (raw_cells_at piece.now starts.now stops.now from n)) }
{
    let mut at = fill;
    // By place: three lists are indexed at once.
    for k in from..n {
        at = buffer::copy(bytes, at, &piece[starts[k]..stops[k]]);
        ends[k] = at;
    }
    at
}

// Appends the bytes of the cell that is still open. Returns how many bytes are buffered.
pub fn buffer_open(rest: &[u8], bytes: &mut [u8], fill: usize) -> usize
    requires { fill + length rest.now ≤ length bytes.old }
    ensures { (result ≡ fill + length rest.now)
        × (bytes.new ≡ written bytes.old fill rest.now) }
{
    buffer::copy(bytes, fill, rest)
}

// Stores the starts of n buffered cells: 0, and each end but the last.
pub fn starts_of(ends: &[usize], n: usize, starts: &mut [usize])
    requires { (n ≤ length ends.now) × (n ≤ length starts.old) }
    ensures { starts.new ≡ over (take n (0 ∷ ends.now)) starts.old }
{
    let mut at = 0;
    // By place: the end of one cell is the start of the next.
    for k in 0..n {
        starts[k] = at;
        at = ends[k];
    }
}

// Stores the numbers of the kinds of n cells.
pub fn kinds_of(
    d: Dialect,
    bytes: &[u8],
    starts: &[usize],
    ends: &[usize],
    n: usize,
    kinds: &mut [u8],
)
    requires spans_in { SpansIn bytes.now starts.now ends.now 0 n }
    requires n_in_bounds { n ≤ length kinds.old }
    ensures { kinds.new ≡ over (kinds_at d bytes.now starts.now ends.now n) kinds.old }
{
    // By place: a span's start and end are in two lists.
    for k in 0..n {
        kinds[k] = u8::from(cell::kind_of(d, &bytes[starts[k]..ends[k]]));
    }
}
