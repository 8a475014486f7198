// The text of one unit of content between the quotes of a target: a byte, a character of more than one byte, or a lone surrogate. The
// unit's bytes go in, those of its text come out. The definitions are `escaped`, `surrogate` and `doubled` of model's
// specs/rules/Text.antt, joined as `body_text` in specs/Units.antt.
ghost use Rattle.std.specs.Prelude.{◌≡◌, [], ◌∷◌, ◌<◌, ◌≤◌, length};
ghost use Rattle.model.specs.rules.Base.{BACKSLASH};
ghost use Rattle.model.specs.rules.Dialect.{is_csvj};
ghost use Rattle.model.specs.rules.Text.{hex_digit, escaped, surrogate, doubled};
ghost use Rattle.cell_decoder.specs.Units.{Unit};
ghost use Rattle.cell_writer.specs.Units.{is_lone, body_text};

use buffer::short::Short;
use model::Dialect;

// ---- strings of CSVJ

fn hex_digit(n: u8) -> u8
    requires { n < 0x20 }
    ensures { result ≡ hex_digit n }
{
    if n <= 9 { b'0' + n } else { b'a' - 10 + n }
}

// A backslash and a letter.
fn short(letter: u8) -> Short<6>
    ensures { result ≡ BACKSLASH ∷ letter ∷ [] }
{
    Short::new([b'\\', letter, 0, 0, 0, 0], 2)
}

fn verbatim_byte(b: u8) -> Short<6>
    ensures { result ≡ b ∷ [] }
{
    Short::new([b, 0, 0, 0, 0, 0], 1)
}

// A byte of a string (§14.3).
fn escape(b: u8) -> Short<6>
    ensures { result ≡ escaped b }
{
    match b {
        b'"' | b'\\' => short(b),
        0x20.. => verbatim_byte(b),
        0x08 => short(b'b'),
        b'\t' => short(b't'),
        b'\n' => short(b'n'),
        0x0C => short(b'f'),
        b'\r' => short(b'r'),
        _ => {
            let high = hex_digit(b / 0x10);
            let low = hex_digit(b % 0x10);
            Short::new([b'\\', b'u', b'0', b'0', high, low], 6)
        }
    }
}

// The lone surrogate ED b c: \ud and three digits (§14.4).
pub fn lone(b: u8, c: u8) -> Short<6>
    requires { 0x80 ≤ b }
    ensures { result ≡ surrogate b c }
{
    let bits = (b - 0x80) % 0x40;
    let second = hex_digit(bits / 4);
    let third = hex_digit(bits % 4 * 4 + c.saturating_sub(0x80) / 0x10);
    let fourth = hex_digit(c % 0x10);
    Short::new([b'\\', b'u', b'd', second, third, fourth], 6)
}

// ---- text with doubled quotes

fn double(q: u8, b: u8) -> Short<6>
    ensures { result ≡ doubled q (b ∷ []) }
{
    if b == q {
        return Short::new([b, b, 0, 0, 0, 0], 2);
    }
    verbatim_byte(b)
}

// ---- units

pub fn byte_text(t: Dialect, b: u8) -> Short<6>
    ensures { result ≡ body_text t (b ∷ []) }
{
    match t {
        Dialect::Csvj => escape(b),
        Dialect::Tdif | Dialect::CsvPlus(_) => double(cell_lexer::quote_of(t), b),
    }
}

// Whether a unit is a lone surrogate.
pub fn is_lone(unit: &[u8]) -> bool
    ensures { result ≡ is_lone unit.now }
{
    matches!(unit, [0xED, 0xA0..=0xFF, _])
}

pub fn is_csvj(t: Dialect) -> bool
    ensures { result ≡ is_csvj t }
{
    matches!(t, Dialect::Csvj)
}

fn verbatim(unit: &[u8]) -> Short<6>
    requires { length unit.now ≤ 6 }
    ensures { result ≡ unit.now }
{
    Short::of(unit)
}

// The text of a unit.
pub fn unit_text(t: Dialect, unit: &[u8]) -> Short<6>
    requires { Unit unit.now }
    ensures { result ≡ body_text t unit.now }
{
    if unit.len() == 1 {
        return byte_text(t, unit[0]);
    }
    if is_csvj(t) && is_lone(unit) {
        return lone(unit[1], unit[2]);
    }
    verbatim(unit)
}
