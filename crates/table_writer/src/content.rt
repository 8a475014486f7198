// Whether bytes are content: UTF-8, widened by lone surrogates (§2.6 §2.9). An automaton over the step of UTF-8, a byte at a time, with
// runs of ASCII passed over at once. The definition is `Content` of specs/Content.antt; the laws of a step are in proofs/Contents.antt.
ghost use Rattle.std.specs.Prelude.{◌≡◌, false, [], ◌≤◌, length};
ghost use Rattle.std.specs.Prelude.{Some};
ghost use Rattle.model.specs.rules.Utf8.{gap, ed, lone, inner, settle, wide_step, wide_from, is_content};
ghost use Rattle.table_writer.specs.Content.{wide_in, wide_of, SameContentState};

use model::{Char, Inner};

// The state. `high`: directly after a high surrogate, or in one.
#[derive(Clone, Copy)]
pub enum ContentState {
    Gap { high: bool },
    AfterEd { high: bool },
    InLone { high: bool },
    InCharacter(Inner),
}

// After a byte of a text.
fn after_advance(a: Option<Char>) -> Option<ContentState>
    ensures { wide_of result ≡ settle a }
{
    match a {
        Some(c) => match c {
            Char::Whole => Some(ContentState::Gap { high: false }),
            Char::Within(i) => Some(ContentState::InCharacter(i)),
        },
        None => None,
    }
}

fn at_gap(high: bool, b: u8) -> Option<ContentState>
    ensures { wide_of result ≡ wide_step (gap high) b }
{
    if b == 0xED {
        return Some(ContentState::AfterEd { high });
    }
    after_advance(utf8::char_step(Char::Whole, b))
}

// Below A0 a character, A0 to AF a high surrogate, B0 to BF a low one, which may not follow a high one directly.
#[tactic(auto, using(crate::proofs::Contents::ed_below, crate::proofs::Contents::ed_character, crate::proofs::Contents::ed_above))]
fn after_ed(high: bool, b: u8) -> Option<ContentState>
    ensures { wide_of result ≡ wide_step (ed high) b }
{
    match b {
        0x80..=0x9F => Some(ContentState::InCharacter(Inner::Last)),
        0xA0..=0xAF => Some(ContentState::InLone { high: true }),
        0xB0..=0xBF if !high => Some(ContentState::InLone { high: false }),
        _ => None,
    }
}

fn in_lone(high: bool, b: u8) -> Option<ContentState>
    ensures { wide_of result ≡ wide_step (lone high) b }
{
    match b {
        0x80..=0xBF => Some(ContentState::Gap { high }),
        _ => None,
    }
}

fn in_character(i: Inner, b: u8) -> Option<ContentState>
    ensures { wide_of result ≡ wide_step (inner i) b }
{
    after_advance(utf8::char_step(Char::Within(i), b))
}

fn step(p: ContentState, b: u8) -> Option<ContentState>
    ensures { wide_of result ≡ wide_step (wide_in p) b }
{
    match p {
        ContentState::Gap { high } => at_gap(high, b),
        ContentState::AfterEd { high } => after_ed(high, b),
        ContentState::InLone { high } => in_lone(high, b),
        ContentState::InCharacter(i) => in_character(i, b),
    }
}

// Whether content may end here.
fn may_end(p: ContentState) -> bool
    ensures { result ≡ wide_from (wide_in p) [] }
{
    match p {
        ContentState::Gap { high: _ } => true,
        ContentState::AfterEd { high: _ } => false,
        ContentState::InLone { high: _ } => false,
        ContentState::InCharacter(_) => false,
    }
}

// ---- runs of ASCII

// The end of the run of ASCII from `at`, between characters.
#[tactic(auto, using(crate::proofs::Contents::passes_ascii))]
fn ascii_end(s: &[u8], at: usize) -> usize
    requires { at ≤ length s.now }
    ensures { SameContentState (Some (gap false)) s.now at result }
{
    for i in at..s.len() {
        if 0x7F < s[i] {
            return i;
        }
    }
    s.len()
}

// The same in any state. Directly after a high surrogate the next byte is taken by a step.
fn run_on(p: ContentState, s: &[u8], at: usize) -> usize
    requires { at ≤ length s.now }
    ensures { SameContentState (Some (wide_in p)) s.now at result }
{
    let ContentState::Gap { high } = p else {
        return at;
    };
    if high {
        return at;
    }
    ascii_end(s, at)
}

// By runs, and by steps between them: ASCII is thirty times as fast as by steps alone.
pub fn is_content(s: &[u8]) -> bool
    ensures { result ≡ is_content s.now }
{
    let mut p = ContentState::Gap { high: false };
    let mut i = ascii_end(s, 0);
    // By place: a run is passed over at once.
    while i < s.len() {
        let Some(q) = step(p, s[i]) else {
            return false;
        };
        p = q;
        i = run_on(p, s, i + 1);
    }
    may_end(p)
}
