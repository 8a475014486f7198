// The program that converts standard input to standard output, `program FROM TO`, over the piece converter: in constant memory, each
// record written as it completes.
//
// It returns no status. A file was converted as a whole exactly if standard error is empty. What is proved is that it is safe and ends;
// the bytes it writes are those of the piece calls.
#![tactic(auto)]

mod failure;
mod stream;

use std::env::FillError;
use std::rt::Env;

// The dialect that an argument names, if it names one. The longest name has four bytes.
fn argument(rt: &HostRuntime, i: usize) -> Option<u32> {
    let mut word = [0u8; 4];
    match rt.arg(i, &mut word) {
        Ok(length) => messages::dialects::dialect_named(&word[..length]),
        Err(_) => None,
    }
}

// Whether the program was started with an argument of this number, 0 being its own name.
fn has_argument(rt: &HostRuntime, i: usize) -> bool {
    let mut word = [0u8; 4];
    !matches!(rt.arg(i, &mut word), Err(FillError::NotPresent))
}

fn help(rt: &HostRuntime) {
    let _ = rt.stderr().write_all(
        b"usage: program FROM TO\n\
          Converts the table on standard input and writes it to standard output.\n\
          FROM and TO are dialects, by name or by number: csvj (1), tdif (2), csv+ (3).\n\
          Example: program csv+ csvj <fares.csv >fares.csvj\n\
          If the table is refused, a line here says why; the records before that were written. No line: all was converted.\n\
          In that line the header is record 1, the first column is column 1, and the first byte of the file is byte 0.\n",
    );
}

fn main(rt: HostRuntime) {
    match (argument(&rt, 1), argument(&rt, 2), has_argument(&rt, 3)) {
        (Some(source), Some(target), false) => stream::convert(&rt, source, target),
        _ => help(&rt),
    }
}
