// The outcomes of a call and the ranges of a receipt, each with the name that specs/Outcomes.antt gives it.
use crate::limits::MAX_FUEL;

pub const ENDED: u64 = 0;

pub const UNKNOWN_FUNCTION: u64 = 1;

pub const BALANCE_TOO_LOW: u64 = 2;

pub const THROWN: u64 = 3;

pub const OUT_OF_RANGE: u64 = 4;

pub const NOT_PAID: u64 = 5;

pub const ZERO_DIVISOR: u64 = 6;

pub const OUT_OF_FUEL: u64 = 7;

// The highest outcome that a receipt may hold, and the highest count of executed instructions.
pub const LAST_OUTCOME: u64 = OUT_OF_FUEL;

pub const MAX_COUNT: u64 = MAX_FUEL as u64;
