#![tactic(auto)]

// The demands, and what follows from them, as statements with their proofs: no code.
