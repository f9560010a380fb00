// The code that decodes a block: parts of a slice, the bodies of records, instructions, and document 01's numbers of refusals.
#![tactic(auto)]

pub mod instruction;
pub mod numbers;
pub mod part;
pub mod record;
