// The closing sheet of a run.
#![tactic(auto)]

use block::format::{CELL_BYTES, HEAD_BYTES, RECEIPT_BYTES};
use block::limits::{MAX_CALLS, MAX_KEYS};

// The longest sheet: its cells, its receipts and its end.
pub const MAX_SHEET: usize = MAX_KEYS * (HEAD_BYTES + CELL_BYTES)
    + MAX_CALLS * (HEAD_BYTES + RECEIPT_BYTES)
    + HEAD_BYTES;
