// Characters of lines, each with the name that specs/Decimal.antt gives it.
pub const LINE_FEED: u8 = 10;

pub const SPACE: u8 = 32;

pub const MINUS: u8 = 45;

pub const ZERO_DIGIT: u8 = 48;

// A number of 64 bits has at most 20 decimal digits.
pub const DECIMAL_DIGITS: usize = 20;
