#![tactic(auto)]

// What the functions for programs in other languages answer and leave: definitions and laws, no code.
