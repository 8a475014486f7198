// A read or a write that the system refused, in words on standard error.
use std::io;
use std::io::{Cursor, Write};

// The system's own words for an error, without the number that std writes after them.
fn words_of(text: &str) -> &str {
    match text.split_once(" (os error ") {
        Some((words, _)) => words,
        None => text,
    }
}

// Writes what failed, and why.
pub fn report(rt: &HostRuntime, what: &str, e: io::Error) {
    let mut room = Cursor::new([0u8; 512]);
    let _ = write!(room, "{e}");
    let text = str::from_utf8(room.get_ref()).unwrap_or("");
    let words = words_of(text.trim_end_matches('\0'));
    let _ = eprintln!(rt; "{what}: {words}");
}
