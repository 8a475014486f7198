// Dialects by the words of the command line. Definition: specs/Words.antt.
ghost use Rattle.std.specs.Prelude.{◌≡◌, ◌||◌};
ghost use Rattle.messages.specs.Words.{spells, dialect_named};

// Whether a word is a name, in upper or lower case.
fn is_word(word: &[u8], name: &[u8]) -> bool
    ensures { result ≡ spells word.now name.now }
{
    word.eq_ignore_ascii_case(name)
}

// Whether a word names a dialect, by the name or by the number.
fn names(word: &[u8], name: &[u8], number: &[u8]) -> bool
    ensures { result ≡ (spells word.now name.now || spells word.now number.now) }
{
    is_word(word, name) || is_word(word, number)
}

// The number of the dialect that a word names.
pub fn dialect_named(word: &[u8]) -> Option<u32>
    ensures { result ≡ dialect_named word.now }
{
    if names(word, b"csvj", b"1") {
        return Some(1);
    }
    if names(word, b"tdif", b"2") {
        return Some(2);
    }
    if names(word, b"csv+", b"3") {
        return Some(3);
    }
    None
}
