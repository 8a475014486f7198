// Eight bytes at a time in one little-endian word (SWAR). A word and a test go in; the top bit of each byte that does not pass comes out,
// its flag. So a word shows whether all eight bytes pass, and otherwise how many do before the first that does not. The definitions are
// those of specs/Words.antt.
//
// The tests are exact, since no operation carries or borrows across a byte: each byte of a sum is at most FF hex, and each byte of a
// difference subtracts no more than it has. A new test needs the values on one byte and the laws of proofs/Bytewise.antt. `no_two_bytes`
// alone has a flag of another form.
#![tactic(auto)]

ghost use Rattle.std.specs.Prelude.{◌≡◌, ◌+◌, ◌*◌, ◌≤◌, ◌<◌, [], ◌∷◌, ◌++◌, length, get_or, IfSome};
ghost use Rattle.model.specs.rules.Base.{QUOTE};
ghost use Rattle.model.specs.rules.Cell.{is_digit};
ghost use Rattle.model.specs.rules.Api.{slice};
ghost use Rattle.swar.specs.Words.{word_of, Word, ONES, bytes_of, ascii_stop, ordinary, clean_ascii, is_clean, plain_text, is_byte, is_below, Flags, zero_bytes, LastBytes, two_byte_prefix};

// Eight bytes as one number, the first lowest. They are joined by |, which the compiler turns into one load at once. A sum, as
// `u64::from_le_bytes` is, it recognizes only after it has refused to inline the caller's loop, and tables of short cells took a tenth
// more time.
fn joined(b0: u8, b1: u8, b2: u8, b3: u8, b4: u8, b5: u8, b6: u8, b7: u8) -> u64
    ensures { result ≡ word_of (b0 ∷ b1 ∷ b2 ∷ b3 ∷ b4 ∷ b5 ∷ b6 ∷ b7 ∷ []) }
{
    (b0 as u64)
        | (b1 as u64) * 0x100
        | (b2 as u64) * 0x10000
        | (b3 as u64) * 0x1000000
        | (b4 as u64) * 0x100000000
        | (b5 as u64) * 0x10000000000
        | (b6 as u64) * 0x1000000000000
        | (b7 as u64) * 0x100000000000000
}

// The eight bytes from `i` on.
pub fn word(s: &[u8], i: usize) -> u64
    requires { i + 8 ≤ length s.now }
    ensures { Word (slice s.now i (i + 8)) result }
{
    joined(
        s[i],
        s[i + 1],
        s[i + 2],
        s[i + 3],
        s[i + 4],
        s[i + 5],
        s[i + 6],
        s[i + 7],
    )
}

// ---- the last bytes of a span

// The word of a span without bytes.
const SPACES: u64 = 0x2020202020202020;

// Four bytes as one number. The four zeros are joined at no cost.
fn four(s: &[u8], i: usize) -> u64
    requires { i + 4 ≤ length s.now }
    ensures { (bytes_of 4 result ≡ slice s.now i (i + 4)) × (result < 0x100000000) }
{
    joined(s[i], s[i + 1], s[i + 2], s[i + 3], 0, 0, 0, 0)
}

// Two groups of four bytes.
fn fours(s: &[u8], i: usize, j: usize) -> u64
    requires { (i + 4 ≤ length s.now) × (j + 4 ≤ length s.now) }
    ensures { bytes_of 8 result ≡ slice s.now i (i + 4) ++ slice s.now j (j + 4) }
{
    four(s, i) | four(s, j) * 0x100000000
}

// Three bytes, padded with spaces.
fn three(s: &[u8], i: usize, j: usize, k: usize) -> u64
    requires { (i < length s.now) × (j < length s.now) × (k < length s.now) }
    ensures { bytes_of 8 result ≡ get_or s.now i 0 ∷ get_or s.now j 0 ∷ get_or s.now k 0 ∷ 0x20 ∷ 0x20 ∷ 0x20 ∷ 0x20 ∷ 0x20 ∷ [] }
{
    joined(s[i], s[j], s[k], 0x20, 0x20, 0x20, 0x20, 0x20)
}

// The last eight bytes of a span. A span of fewer fills the word by bytes that are read twice, so that no byte outside is read and none
// needs a step of its own.
pub fn last_word(s: &[u8], from: usize, upto: usize) -> u64
    requires { (from ≤ upto) × (upto ≤ length s.now) }
    ensures { LastBytes s.now from upto result }
{
    let n = upto - from;
    if 8 <= n {
        return word(s, upto - 8);
    }
    if 4 <= n {
        return fours(s, from, upto - 4);
    }
    if n == 0 {
        return SPACES;
    }
    three(s, from, from + n / 2, upto - 1)
}

// ---- tests of bytes

// Of each of the eight bytes: the top bit, the other bits, and 1.
const TOP_BITS: u64 = 0x8080808080808080;

const LOW_BITS: u64 = 0x7F7F7F7F7F7F7F7F;

const ONE_EACH: u64 = 0x0101010101010101;

// A stop, repeated eight times. Bytes from 80 hex on are not ordinary or clean anyway, so a stop among them is replaced by 0, which is
// neither.
fn eight_stops(p: u8) -> u64
    ensures { result ≡ ascii_stop p * ONES }
{
    if p < 0x80 { (p as u64) * ONE_EACH } else { 0 }
}

// The top bit of each byte that is not ordinary ASCII. Without its top bit a byte is at most 7F hex, and so is its difference from a stop
// in the bits. 80 minus that has the top bit where the two are equal, 9F minus the byte where it is below 20, and the byte plus 1 at 7F.
pub fn unordinary(w: u64, p: u8, q: u8) -> u64
    ensures { Flags (ordinary p q) w result }
{
    let low = w & LOW_BITS;
    let is_first = TOP_BITS - (low ^ eight_stops(p));
    let is_second = TOP_BITS - (low ^ eight_stops(q));
    let below_20 = 0x9F9F9F9F9F9F9F9F - low;
    let is_7f = low + ONE_EACH;
    (w | is_first | is_second | below_20 | is_7f) & TOP_BITS
}

// The top bit of each byte that is not clean ASCII, computed as in `unordinary`; 7F hex is clean.
pub fn unclean(w: u64, p: u8, q: u8) -> u64
    ensures { Flags (clean_ascii p q) w result }
{
    let ascii = w & LOW_BITS;
    let is_first = TOP_BITS - (ascii ^ eight_stops(p));
    let is_second = TOP_BITS - (ascii ^ eight_stops(q));
    let is_backslash = TOP_BITS - (ascii ^ 0x5C5C5C5C5C5C5C5C);
    let below_20 = 0x9F9F9F9F9F9F9F9F - ascii;
    (w | is_first | is_second | is_backslash | below_20) & TOP_BITS
}

// The top bit of each byte that is no digit, computed as in `unordinary`: the byte plus 46 hex has it from 3A hex on, AF minus the byte
// below 30.
pub fn no_digit(w: u64) -> u64
    ensures { Flags is_digit w result }
{
    let ascii = w & LOW_BITS;
    let above = ascii + 0x4646464646464646;
    let below = 0xAFAFAFAFAFAFAFAF - ascii;
    (w | above | below) & TOP_BITS
}

// The top bit of each byte that is not clean in a text. Flipping 02 hex keeps ASCII below 20 there and moves only the quotation mark to
// 20, so that one sum separates both from all above. A byte from 80 hex on is clean.
pub fn unclean_text(w: u64) -> u64
    ensures { Flags (is_clean QUOTE) w result }
{
    let low = w & LOW_BITS;
    let no_mark = (low ^ 0x0202020202020202) + 0x5F5F5F5F5F5F5F5F;
    let no_backslash = (low ^ 0x5C5C5C5C5C5C5C5C) + LOW_BITS;
    (((no_mark & no_backslash) | w) & TOP_BITS) ^ TOP_BITS
}

// The top bit of each byte that is not plain in a text: ASCII as in `unclean_text`, and of the other bytes ED hex alone.
pub fn unplain_text(w: u64) -> u64
    ensures { Flags plain_text w result }
{
    let low = w & LOW_BITS;
    let no_mark = (low ^ 0x0202020202020202) + 0x5F5F5F5F5F5F5F5F;
    let no_backslash = (low ^ 0x5C5C5C5C5C5C5C5C) + LOW_BITS;
    let no_ed = (low ^ 0x6D6D6D6D6D6D6D6D) + LOW_BITS;
    let ascii = no_mark & no_backslash & !w;
    ((ascii | (no_ed & w)) & TOP_BITS) ^ TOP_BITS
}

// The top bit of each byte that is not `c`: if a byte of the difference is not 0, its low bits carry into that bit, or it is set already.
pub fn other_than(w: u64, c: u8) -> u64
    ensures { Flags (is_byte c) w result }
{
    let difference = w ^ ((c as u64) * ONE_EACH);
    (((difference & LOW_BITS) + LOW_BITS) | difference) & TOP_BITS
}

// The top bit of each byte from 20 hex on.
pub fn from_20(w: u64) -> u64
    ensures { Flags (is_below 0x20) w result }
{
    (((w & LOW_BITS) + 0x6060606060606060) | w) & TOP_BITS
}

// Not 0 in the first byte that does not lie as in four characters of two bytes, of which the first begins with the word, and 0 in those
// before it; nothing is promised of those after it. The mask leaves of `rest` the top bits where they are not 110 and 10 by turns. They are
// 110 in C0 and C1 hex too, which begin no character: only there the mask of `too_low` leaves 0, and 21 hex minus it has the bit 20.
pub fn no_two_bytes(w: u64) -> u64
    ensures { zero_bytes (bytes_of 8 result) ≡ two_byte_prefix (bytes_of 8 w) }
{
    let rest = w ^ 0x80C080C080C080C0;
    let too_low = 0x0021002100210021 - (w & 0x001E001E001E001E);
    (rest | too_low) & 0xC0E0C0E0C0E0C0E0
}

// The number of bytes before the first flag.
pub fn before_flag(flags: u64) -> usize
    ensures { result ≡ zero_bytes (bytes_of 8 flags) }
{
    flags.trailing_zeros() as usize / 8
}

// A guess at the number of bytes before the first `c`, if one is found. It takes fewer instructions than an exact test, since it takes a
// byte that differs in its top bit alone for `c`. Only that it is within the word is promised, so its callers test what it returns.
pub fn guess(w: u64, c: u8) -> Option<usize>
    ensures { IfSome result (λ n. n < 8) }
{
    let near = (TOP_BITS - ((w & LOW_BITS) ^ eight_stops(c))) & TOP_BITS;
    if near == 0 {
        return None;
    }
    Some(before_flag(near))
}
