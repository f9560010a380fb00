// The head of a lent run as words, and the fixed sizes by number.
#![tactic(auto)]

pub mod answers;
pub mod words;
