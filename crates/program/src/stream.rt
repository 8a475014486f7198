// Standard input to standard output, one piece at a time. A step is loop-free: it reads once, converts what came and writes what that
// completed.
ghost use Rattle.std.specs.Prelude.{◌≤◌, length};

use crate::failure;
use codes::{LEAST_OUTPUT, MAX_COLUMNS, MAX_FILE, MAX_PIECE, MAX_RECORD, TextAnswer};
use messages::refusal;
use model::Report;
use piece_converter::lent;
use std::io::Read;

// How many bytes of the output a call wrote. No call returns a length over that of the output; checking it here spares proving it here.
fn written_length(written: usize, out: &[u8]) -> usize
    ensures { result ≤ length out.now }
{
    written.min(out.len())
}

// Writes a refusal in words to standard error.
fn say(rt: &HostRuntime, e: Report) {
    let mut text = [0u8; 4096];
    let n = refusal::sentence(e, &mut text);
    let _ = rt.stderr().write_all(&text[..n]);
}

// Writes the output of a call, and returns whether the conversion continues after it.
fn deliver(rt: &HostRuntime, answer: TextAnswer, out: &[u8]) -> bool {
    let n = written_length(answer.length, out);
    if let Err(e) = rt.stdout().write_all(&out[..n]) {
        failure::report(rt, "standard output could not be written in full", e);
        return false;
    }
    let e = answer.report;
    if e.number == 0 {
        return true;
    }
    say(rt, e);
    false
}

// A conversion: its dialects, the state that the calls are lent, and their output.
#[derive(Drop)]
struct Conversion {
    source: u32,
    target: u32,
    numbers: [usize; 14],
    ends: [usize; MAX_COLUMNS],
    name_ends: [usize; MAX_COLUMNS],
    bytes: [u8; MAX_RECORD],
    names: [u8; MAX_RECORD],
    out: [u8; LEAST_OUTPUT],
}

impl Conversion {
    // The call for the end of the input.
    fn end(&mut self) -> TextAnswer {
        lent::end(
            self.source,
            self.target,
            &mut self.numbers,
            &mut self.ends,
            &mut self.name_ends,
            &mut self.bytes,
            &mut self.names,
            &mut self.out,
        )
    }

    // The call for the next bytes of the input.
    fn piece(&mut self, input: &[u8]) -> TextAnswer {
        lent::piece(
            self.source,
            self.target,
            &mut self.numbers,
            &mut self.ends,
            &mut self.name_ends,
            &mut self.bytes,
            &mut self.names,
            input,
            &mut self.out,
        )
    }

    // One read and the call that follows from it. Returns whether there may be more to read.
    fn step(&mut self, rt: &HostRuntime) -> bool {
        let mut input = [0u8; MAX_PIECE];
        let n = match rt.stdin().read(&mut input) {
            Ok(n) => n,
            Err(e) => {
                failure::report(rt, "standard input could not be read to its end", e);
                return false;
            }
        };
        if n == 0 {
            let answer = self.end();
            deliver(rt, answer, &self.out);
            return false;
        }
        let answer = self.piece(&input[..n]);
        deliver(rt, answer, &self.out)
    }
}

// Converts all of standard input. A loop has to end, and nothing says that standard input does; but a step after which there may be more
// has read at least a byte, and a file of more than MAX_FILE bytes is refused. So the steps never run out.
pub fn convert(rt: &HostRuntime, source: u32, target: u32) {
    let mut conversion = Conversion {
        source,
        target,
        numbers: [0usize; 14],
        ends: [0usize; MAX_COLUMNS],
        name_ends: [0usize; MAX_COLUMNS],
        bytes: [0u8; MAX_RECORD],
        names: [0u8; MAX_RECORD],
        out: [0u8; LEAST_OUTPUT],
    };
    // By count, and no `for`: the must-fail edit `endless` shows that the count is what ends the loop.
    let mut turns = MAX_FILE + 1;
    while 0 < turns && conversion.step(rt) {
        turns -= 1;
    }
}
