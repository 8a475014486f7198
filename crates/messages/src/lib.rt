// The texts of the program: the dialects by name, and a refusal as a sentence.
#![tactic(auto)]

pub mod dialects;
pub mod refusal;
