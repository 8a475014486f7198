// Canonical text of a record in any target, from raw bytes of a file in any dialect, or from contents.
//
// line.rt is the entry: a record's text, alone or with its ending. It takes the fast path for verbatim cells (clean.rt) or the loop over
// the cells (record.rt), which copies a cell that needs no decoding (verbatim.rt) and hands any other to cell_writer. Each writer only
// measures where `write` is false.
//
// The definitions are model's specs/rules/Text.antt. A rule that changes there changes a law of proofs/, and no loop.
#![tactic(auto)]

pub mod clean;
pub mod line;
pub mod quotes;
pub mod record;
mod verbatim;
pub mod words;
