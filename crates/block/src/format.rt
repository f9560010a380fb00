// The records of a block and of a sheet: kinds, lengths, and the place values of a key's first word.
use crate::limits::MAX_CODE;

// "little-endian records: length (2 bytes, of the body), kind (2), body", and the kinds.
pub const HEAD_BYTES: usize = 4;

pub const FUNCTION_KIND: usize = 1;

pub const CELL_KIND: usize = 2;

pub const CALL_KIND: usize = 3;

pub const END_KIND: usize = 4;

pub const RECEIPT_KIND: usize = 5;

// The length of an instruction, of what stands before a function's code, of the longest function, of a cell, of a call and of a receipt.
pub const INSTR_BYTES: usize = 8;

pub const FUNCTION_BYTES: usize = 4;

pub const LONGEST_FUNCTION: usize = FUNCTION_BYTES + INSTR_BYTES * MAX_CODE;

pub const CELL_BYTES: usize = 20;

pub const CALL_BYTES: usize = 32;

pub const RECEIPT_BYTES: usize = 4;

// The length of a call's record, its head included.
pub const CALL_RECORD_BYTES: usize = HEAD_BYTES + CALL_BYTES;

// The place values of address and field in a key's first word, above a, and how many fields there are.
pub const ADDRESS_BASE: u64 = 281474976710656;

pub const FIELD_BASE: u64 = 4294967296;

pub const FIELDS: u64 = 65536;
