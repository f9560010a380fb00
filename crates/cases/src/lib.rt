#![tactic(auto)]

// Computed examples: the refusals of an input, edges of digits, keys and buffers, and random blocks with moves against the independent runner.
