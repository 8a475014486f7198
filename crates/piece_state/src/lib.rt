// The state of a piece converter between calls, as plain numbers and bytes: where the conversion is (place.rt), the buffered cells of the
// current record (cells.rt), and lexer states as numbers (state_codes.rt). checks.rt has the checks before a call.
#![tactic(auto)]

pub mod cells;
pub mod checks;
pub mod place;
pub mod state_codes;
