// The limits of a block and of a run, each with the name that specs/Limits.antt gives it.
pub const MAX_BYTES: usize = 65536;

pub const MAX_FUNCTIONS: usize = 64;

pub const MAX_CODE: usize = 64;

pub const MAX_CELLS: usize = 1024;

pub const MAX_CALLS: usize = 256;

pub const MAX_CALL_KEYS: usize = 24;

pub const MAX_KEYS: usize = 1024;

pub const MAX_FUEL: usize = 65535;

pub const MAX_WORKERS: usize = 8;
