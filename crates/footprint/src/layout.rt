// Where the words of a lent run's plan and keys stand. Each number is the one that the definitions use.
// A call has PLAN_WORDS words of the plan: where its code starts, the code's length plus 1, the number of its keys, its entries, its row,
// and one more.
pub const PLAN_WORDS: usize = 32;

pub const CODE_START: usize = 0;

pub const CODE_LENGTH: usize = 1;

pub const KEY_COUNT: usize = 2;

pub const FIRST_ENTRY: usize = 3;

pub const FIRST_ROW_WORD: usize = 27;

// An entry is a cell number times ENTRY_FLAGS, plus its flags; those from WRITES_FLAG on have the one for a cell that is written.
pub const ENTRY_FLAGS: u64 = 4;

pub const WRITES_FLAG: u64 = 2;

// A cell has KEY_WORDS words of the keys.
pub const KEY_WORDS: usize = 2;
