// Escapes of a CSVJ string: the offset of a backslash goes in; the bytes of the escape and the offset after it come out (`Proceeds` of
// specs/Strings.antt).
//
// The escape of a high surrogate looks ahead for a low one (§2.8), so that no state is saved from one escape to the next.
ghost use Rattle.std.specs.Prelude.{◌≡◌, ◌+◌, ◌<◌, ◌≤◌, [], ◌∷◌, length, get_or};
ghost use Rattle.model.specs.rules.Base.{BACKSLASH};
ghost use Rattle.model.specs.rules.Decode.{hex_of, short_of};
ghost use Rattle.cell_decoder.specs.Strings.{unit_at, UnitThere, LowAt, Proceeds};

use buffer::short::Short;

// The bytes of a part of a string, and where the string continues.
#[derive(Clone, Copy)]
pub struct Unescaped {
    pub text: Short<4>,
    pub next: usize,
}

impl Unescaped {
    // One byte.
    pub fn byte(b: u8, next: usize) -> Unescaped
        ensures { (result.text ≡ b ∷ []) × (result.next ≡ next) }
    {
        Unescaped {
            text: Short::new([b, 0, 0, 0], 1),
            next,
        }
    }

    // Nothing, up to the end of the cell.
    pub fn end_of(raw: &[u8]) -> Unescaped
        ensures { (result.text ≡ []) × (result.next ≡ length raw.now) }
    {
        Unescaped {
            text: Short::new([0; 4], 0),
            next: raw.len(),
        }
    }
}

// The value of a hexadecimal digit.
fn hex_of(b: u8) -> u32
    ensures { (result ≡ hex_of b) × (result ≤ 168) }
{
    match b {
        ..=b'9' => b.saturating_sub(b'0') as u32,
        ..=b'F' => b.saturating_sub(b'A' - 10) as u32,
        _ => b.saturating_sub(b'a' - 10) as u32,
    }
}

// The byte that an escape of one letter means (§3.6).
fn short_escape(b: u8) -> u8
    ensures { result ≡ short_of b }
{
    match b {
        b'b' => 0x08,
        b'f' => 0x0C,
        b'n' => b'\n',
        b'r' => b'\r',
        b't' => b'\t',
        _ => b,
    }
}

// The code unit of the four digits at i.
fn unit_at(raw: &[u8], i: usize) -> u32
    requires { i + 4 ≤ length raw.now }
    ensures { (result ≡ unit_at raw.now i) × (result ≤ 733992) }
{
    // No fold: four digits are no plainer in a loop.
    let a = hex_of(raw[i]);
    let b = hex_of(raw[i + 1]);
    let c = hex_of(raw[i + 2]);
    let d = hex_of(raw[i + 3]);
    ((a * 0x10 + b) * 0x10 + c) * 0x10 + d
}

// The low surrogate of an escape at i, if there is one.
fn low_at(raw: &[u8], i: usize) -> Option<u32>
    requires { i ≤ length raw.now }
    ensures { LowAt raw.now i result }
{
    if raw.len() - i < 6 || raw[i] != b'\\' || raw[i + 1] != b'u' {
        return None;
    }
    match unit_at(raw, i + 2) {
        l @ 0xDC00..=0xDFFF => Some(l),
        _ => None,
    }
}

// A \u escape at i, with all its digits.
fn unescape_unit(raw: &[u8], i: usize) -> Unescaped
    requires { UnitThere raw.now i }
    ensures { Proceeds raw.now i result.text result.next }
{
    let h = unit_at(raw, i + 2);
    let next = i + 6;
    if (0xD800..=0xDBFF).contains(&h) {
        if let Some(l) = low_at(raw, next) {
            return Unescaped {
                text: utf8::pack(utf8::joined(h, l)),
                next: i + 12,
            };
        }
    }
    Unescaped {
        text: utf8::pack(h),
        next,
    }
}

// The escape whose backslash is at i. One that the end of the cell cuts short has no content.
pub fn unescape_at(raw: &[u8], i: usize) -> Unescaped
    requires { (i < length raw.now) × (get_or raw.now i 0 ≡ BACKSLASH) }
    ensures { Proceeds raw.now i result.text result.next }
{
    if raw.len() - i < 2 {
        return Unescaped::end_of(raw);
    }
    let b = raw[i + 1];
    if b != b'u' {
        return Unescaped::byte(short_escape(b), i + 2);
    }
    if raw.len() - i < 6 {
        return Unescaped::end_of(raw);
    }
    unescape_unit(raw, i)
}
