// A complete cell stored in the lent lists, if there is room. The definition is `store_if` of specs/Stored.antt. The
// lists stay three slices, since a caller from C lends three arrays.
ghost use Rattle.std.specs.Prelude.{◌≡◌, ◌≤◌, length};
ghost use Rattle.model.specs.rules.Decode.{kind_number, kind_of};
ghost use Rattle.model.specs.rules.Api.{slice};
ghost use Rattle.record_scanner.specs.Stored.{store_if};

use model::Dialect;

// The cell from `opened` up to `i`, if it ends there, stored at index k of each list, if there is room.
pub fn store_cell(
    closes: bool,
    d: Dialect,
    part: &[u8],
    opened: usize,
    i: usize,
    room: usize,
    k: usize,
    starts: &mut [usize],
    ends: &mut [usize],
    kinds: &mut [u8],
)
    requires opened_le_i { (opened ≤ i) × (i ≤ length part.now) }
    requires room_in_bounds { (room ≤ length starts.old) × (room ≤ length ends.old) × (room ≤ length kinds.old) }
    ensures starts_after { starts.new ≡ store_if closes room k opened starts.old }
    ensures ends_after { ends.new ≡ store_if closes room k i ends.old }
    ensures kinds_after { kinds.new ≡ store_if closes room k (kind_number (kind_of d (slice part.now opened i))) kinds.old }
{
    if closes && k < room {
        starts[k] = opened;
        ends[k] = i;
        kinds[k] = u8::from(codes::cell::kind_of(d, &part[opened..i]));
    }
}
