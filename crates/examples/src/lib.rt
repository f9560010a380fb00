#![tactic(auto)]

// The examples of documents 01, 02 and 003, computed: the joint check of the starred ones, the others, and runs that are damaged.
