// Runs of whole non-ASCII characters, validated by the table a character at a time, and four characters of two bytes at a time. A slice
// and an offset go in, the end of the run comes out (`WideRun` of specs/Multibyte.antt).
ghost use Rattle.std.specs.Prelude.{◌≤◌, length};
ghost use Rattle.utf8.specs.Multibyte.{WideEnd, WideRun};

use crate::{ROWS, is_later, row_for};

// The end of the character at i, unless it is ASCII, broken or passes `stop`.
fn char_end(s: &[u8], i: usize, stop: usize) -> Option<usize>
    requires { (i ≤ stop) × (stop ≤ length s.now) }
    ensures { WideEnd s.now i stop result }
{
    if i >= stop {
        return None;
    }
    let row = row_for(s[i])?;
    // Each length has a path of its own, so that its size and its tests are constants.
    if row.length == 2 {
        return if stop - i >= 2 && row.has_second(s[i + 1]) {
            Some(i + 2)
        } else {
            None
        };
    }
    if row.length == 3 {
        return if stop - i >= 3 && row.has_second(s[i + 1]) && is_later(s[i + 2]) {
            Some(i + 3)
        } else {
            None
        };
    }
    if stop - i >= 4 && row.has_second(s[i + 1]) && is_later(s[i + 2]) && is_later(s[i + 3]) {
        Some(i + 4)
    } else {
        None
    }
}

// The end of the character at i, if it has two bytes and ends by `stop`.
fn two_byte_end(s: &[u8], i: usize, stop: usize) -> Option<usize>
    requires { (i ≤ stop) × (stop ≤ length s.now) }
    ensures { WideEnd s.now i stop result }
{
    if stop - i < 2 {
        return None;
    }
    let row = row_for(s[i])?;
    if row.length != 2 || !row.has_second(s[i + 1]) {
        return None;
    }
    Some(i + 2)
}

// The end of the whole words of two-byte characters from `at`, at most `stop`. A `while`: a step takes eight bytes. No place waits for the
// flags of a word, which only decide whether the word is passed: where they gave the end of the run, short runs of one length took half as
// much time again.
fn two_byte_words(s: &[u8], at: usize, stop: usize) -> usize
    requires { (at ≤ stop) × (stop ≤ length s.now) }
    ensures { WideRun s.now at stop result }
{
    let mut i = at;
    while 8 <= stop - i && swar::no_two_bytes(swar::word(s, i)) == 0 {
        i += 8;
    }
    i
}

// The end of the run of whole non-ASCII characters from `at`, at most `stop`. Words are tried once a run, and only after a character of two
// bytes that another character beyond ASCII follows: a single one among ASCII, and a run that begins with a longer one, don't pay for them.
//
// It is part of the two loops that call it. As a call of its own it took 3 to 7 percent more instructions in tables of ASCII alone.
#[inline(always)]
pub fn multibyte_run(s: &[u8], at: usize, stop: usize) -> usize
    requires { (at ≤ stop) × (stop ≤ length s.now) }
    ensures { WideRun s.now at stop result }
{
    let mut i = at;
    if let Some(first) = two_byte_end(s, at, stop) {
        if stop <= first || s[first] < ROWS[0].first {
            return first;
        }
        i = two_byte_words(s, first, stop);
    }
    while let Some(next) = char_end(s, i, stop) {
        i = next;
    }
    i
}
