// The read and write sets of calls, the table of all keys, and the rows of earlier conflicting calls: definitions and laws, and where the words of a
// plan stand.
#![tactic(auto)]

pub mod layout;
