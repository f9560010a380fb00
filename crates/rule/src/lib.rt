#![tactic(auto)]

// The published transaction rule, over the records and instructions of a block alone: definitions and their laws, no code.
