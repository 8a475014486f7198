// The ends of unquoted cells of CSVJ and TDIF: numbers without an exponent, true, false and null. None means fallback. The definition is
// `EndsBefore` of specs/Ends.antt, by the parts of specs/BareValues.antt.
ghost use Rattle.std.specs.Prelude.{◌≡◌, true, IfSome, ◌≤◌, ◌<◌, length, get_or};
ghost use Rattle.model.specs.declared.Dialect.TheVariants.{Csvj, Tdif};
ghost use Rattle.model.specs.declared.Cell.{Cell};
ghost use Rattle.model.specs.declared.Cell.TheVariants.{Fresh};
ghost use Rattle.model.specs.rules.Cell.{is_digit};
ghost use Rattle.cell_fast.specs.TextRuns.{PassRun};
ghost use Rattle.cell_fast.specs.Ends.{EndsBefore};
ghost use Rattle.cell_fast.specs.BareValues.{DigitsTo, Digits, is_letter_e, BeginsNumber, IntegerEnd, Letters};

// The end of the digits from `at` on, as far as the next eight bytes show.
fn word_digits(s: &[u8], at: usize, stop: usize) -> usize
    requires { (at ≤ stop) × (stop ≤ length s.now) }
    ensures { PassRun is_digit s.now at stop result }
{
    if stop - at < 8 {
        return at;
    }
    at + swar::before_flag(swar::no_digit(swar::word(s, at)))
}

// The end of the whole words of digits from `at` on. A `while`: a step takes eight bytes.
fn digit_words(s: &[u8], at: usize, stop: usize) -> usize
    requires { (at ≤ stop) × (stop ≤ length s.now) }
    ensures { PassRun is_digit s.now at stop result }
{
    let mut i = at;
    while 8 <= stop - i && swar::no_digit(swar::word(s, i)) == 0 {
        i += 8;
    }
    i
}

// The end of the digits from `at` on, a byte at a time: the next cell waits for it, and the flags of a word are known later than the end of
// a few digits is predicted.
fn digit_bytes(s: &[u8], at: usize, stop: usize) -> usize
    requires { (at ≤ stop) × (stop ≤ length s.now) }
    ensures { DigitsTo s.now at stop result }
{
    for i in at..stop {
        if !cell_lexer::values::is_digit(s[i]) {
            return i;
        }
    }
    stop
}

// The end of the digits from `at` on, of which those up to `known` are known; there is at least one, and a byte that is no digit follows.
fn digits_end(s: &[u8], at: usize, known: usize, stop: usize) -> Option<usize>
    requires bounds { stop ≤ length s.now }
    requires digits { PassRun is_digit s.now at stop known }
    ensures { IfSome result (Digits s.now at stop) }
{
    let end = digit_bytes(s, known, stop);
    if end == at || end == stop {
        return None;
    }
    Some(end)
}

// The end of the integer at `at`, of which the digits up to `known` are known.
fn integer_end(s: &[u8], at: usize, known: usize, stop: usize) -> Option<usize>
    requires bounds { (at < stop) × (stop ≤ length s.now) }
    requires digits { PassRun is_digit s.now at stop known }
    ensures { IfSome result (IntegerEnd s.now stop at) }
{
    if s[at] != b'0' {
        return digits_end(s, at, known, stop);
    }
    if stop - at < 2 {
        return None;
    }
    Some(at + 1)
}

fn is_letter_e(b: u8) -> bool
    ensures { result ≡ is_letter_e b }
{
    matches!(b, b'e' | b'E')
}

// The end of a number whose digits begin at `at`, of which those up to `known` are known.
fn number_end(s: &[u8], at: usize, known: usize, stop: usize) -> Option<usize>
    requires bounds { (at < stop) × (stop ≤ length s.now) }
    requires digits { PassRun is_digit s.now at stop known }
    ensures { IfSome result (λ end. (c : Cell) → BeginsNumber c → EndsBefore Csvj s.now stop c at end) }
{
    let end = integer_end(s, at, known, stop)?;
    if s[end] == b'.' {
        let last = digits_end(s, end + 1, end + 1, stop)?;
        if is_letter_e(s[last]) {
            return None;
        }
        return Some(last);
    }
    if is_letter_e(s[end]) {
        return None;
    }
    Some(end)
}

// Whether these three letters follow the byte at `at`, and a byte before `stop` follows them.
fn letters_follow(s: &[u8], at: usize, stop: usize, letters: &[u8; 3]) -> bool
    requires { (at < stop) × (stop ≤ length s.now) }
    ensures { result ≡ true → Letters s.now at stop (get_or letters.now 0 0) (get_or letters.now 1 0) (get_or letters.now 2 0) }
{
    5 <= stop - at && s[at + 1] == letters[0] && s[at + 2] == letters[1] && s[at + 3] == letters[2]
}

// The end of an unquoted cell of CSVJ, a byte at a time.
fn stepwise_end(s: &[u8], at: usize, stop: usize) -> Option<usize>
    requires { (at < stop) × (stop ≤ length s.now) }
    ensures { IfSome result (EndsBefore Csvj s.now stop Fresh at) }
{
    match s[at] {
        b'-' if 2 <= stop - at => number_end(s, at + 1, at + 1, stop),
        b'0'..=b'9' => number_end(s, at, at, stop),
        b't' if letters_follow(s, at, stop, b"rue") => Some(at + 4),
        b'n' if letters_follow(s, at, stop, b"ull") => Some(at + 4),
        b'f' if letters_follow(s, at, stop, b"als") && s[at + 4] == b'e' && 6 <= stop - at => {
            Some(at + 5)
        }
        _ => None,
    }
}

// Whether the bytes from `at` up to the comma at `end` are a number without sign and exponent; false also as fallback.
fn is_number(s: &[u8], at: usize, end: usize, stop: usize) -> bool
    requires { (at ≤ end) × (end < stop) × (stop ≤ length s.now) × (get_or s.now end 0 ≡ 0x2C) }
    ensures { result ≡ true → EndsBefore Csvj s.now stop Fresh at end }
{
    let i = word_digits(s, at, stop);
    if i == at {
        return false;
    }
    if s[at] == b'0' && at + 1 < i {
        return false;
    }
    if end <= i {
        return i == end;
    }
    if s[i] != b'.' {
        return false;
    }
    let last = word_digits(s, i + 1, stop);
    if last == i + 1 {
        return false;
    }
    last == end
}

// The end of an unquoted cell of CSVJ; first by a guess, a number before the next comma. Of a number whose first eight bytes are digits
// the others are passed by words too.
pub fn value_end(s: &[u8], at: usize, stop: usize) -> Option<usize>
    requires { (at < stop) × (stop ≤ length s.now) }
    ensures { IfSome result (EndsBefore Csvj s.now stop Fresh at) }
{
    if 8 <= stop - at {
        let w = swar::word(s, at);
        if let Some(n) = swar::guess(w, b',') {
            if s[at + n] == b',' && is_number(s, at, at + n, stop) {
                return Some(at + n);
            }
        } else if swar::no_digit(w) == 0 {
            return number_end(s, at, digit_words(s, at, stop), stop);
        }
    }
    stepwise_end(s, at, stop)
}

// The end of TDIF's null.
pub fn null_end(s: &[u8], at: usize, stop: usize) -> Option<usize>
    requires { (at < stop) × (stop ≤ length s.now) }
    ensures { IfSome result (EndsBefore Tdif s.now stop Fresh at) }
{
    if stop - at < 3 || s[at] != b'\\' || s[at + 1] != b'N' {
        return None;
    }
    Some(at + 2)
}
