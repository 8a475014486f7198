// Canonical text of a cell, directly from raw bytes in a file of any dialect, or from contents.
//
// Source and target meet in one loop (body.rt): a run of bytes that are verbatim in both (plain.rt), then what stops it, a unit of the
// content (unit.rt, by the source) and its text (escape.rt, by the target). No content is decoded before it is written. special.rt
// decides whether CSV+ quotes a content, and cell.rt writes a cell by its kind. Each writer only measures if `write` is false.
//
// The definitions are model's specs/rules/Text.antt. A rule that changes there changes a law of proofs/, and no loop.
#![tactic(auto)]

pub mod body;
pub mod cell;
pub mod escape;
pub mod plain;
mod special;
pub mod unit;
