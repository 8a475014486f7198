// A call of the piece converter over its state. The definition is the ledger of model's specs/rules/Ledger.antt, in the form of the
// machine of specs/laws/Machine.antt, one call at a time.
//
// run.rt takes a piece, inside a cell or step by step (steps.rt), if a run from the given state stays in bounds (bounds.rt); ending.rt
// takes the end of the file. The header's cells are buffered in the arrays of its names, those of other records in arrays of their own.
#![tactic(auto)]

pub mod bounds;
pub mod ending;
pub mod run;
pub mod steps;
