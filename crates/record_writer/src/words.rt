// A test of all bytes of a span, eight to a step. The definition is `AllIn` of swar's specs/Words.antt.
ghost use Rattle.std.specs.Prelude.{◌≡◌, true, ℕ, Bool, ◌≤◌, ◌<◌, ◌^◌, length};
ghost use Rattle.swar.specs.Words.{Flags, AllIn};

// Whether all bytes from `from` up to `upto` pass. `unfit` tests a word: its result is 0 if all eight bytes pass.
pub fn all_words<F: Fn(u64) -> u64>(raw: &[u8], from: usize, upto: usize, unfit: F) -> bool
    requires span { (from ≤ upto) × (upto ≤ length raw.now) }
    requires callable { F.IsAlwaysCallable unfit }
    ensures { (passes : ℕ → Bool) → ((w flags : ℕ) → w < 2 ^ 64 → F.post unfit w flags → Flags passes w flags)
        → result ≡ true → AllIn passes raw.now from upto }
{
    // By place: a step is eight bytes, and the last word may overlap the one before.
    let mut i = from;
    while 8 < upto - i {
        if unfit(swar::word(raw, i)) != 0 {
            return false;
        }
        i += 8;
    }
    unfit(swar::last_word(raw, from, upto)) == 0
}
