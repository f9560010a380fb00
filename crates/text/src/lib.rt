// Lines of text as bytes in a lent buffer: each function stores one line from a position on and answers the position behind it; what
// does not fit is dropped, and all other bytes are unchanged.
#![tactic(auto)]

ghost use Rattle.std.specs.Prelude.{◌≡◌, ◌∷◌, [], map, ◌+◌, ◌^◌, ◌<◌, ◌≤◌, length};
ghost use Rattle.wire.specs.Rows.{in_row};
ghost use Rattle.wire.specs.Bytes.{stored};
ghost use Rattle.wire.specs.Decimal.{digits_of, decimal, signed_decimal, line_feed, space, zero_digit};
ghost use Rattle.text.specs.Lines.{refused_text, block_refused_text, cell_text, receipt_text, counts_text, passing, row_text};
ghost use Rattle.text.specs.Written.{Written, spaced};

use wire::decimal::{DECIMAL_DIGITS, LINE_FEED, MINUS, SPACE, ZERO_DIGIT};
use wire::{ROW_BITS, ROW_WORDS};

// A digit's character.
fn digit(n: u64) -> u8
    requires { n < 10 }
    ensures { result ≡ zero_digit + n }
{
    ZERO_DIGIT + n as u8
}

// The digits of a number from a position on, `left` at most; answers the position behind them.
fn put_digits(out: &mut [u8], at: usize, left: usize, n: u64) -> usize
    requires at_bound { at < 2 ^ 40 }
    requires left_bound { left ≤ 20 }
    ensures text { out.new ≡ stored out.old at (digits_of left n) }
    ensures end { result ≡ at + length (digits_of left n) }
{
    if left == 0 {
        return at;
    }
    if n < 10 {
        wire::put(out, at, digit(n));
        return at + 1;
    }
    let next = put_digits(out, at, left - 1, n / 10);
    wire::put(out, next, digit(n % 10));
    next + 1
}

// A part of a line from a position on: a space and a number; answers the position behind it.
fn put_part(out: &mut [u8], at: usize, n: u64) -> usize
    requires { at < 2 ^ 39 }
    ensures text { out.new ≡ stored out.old at (space ∷ decimal n) }
    ensures end { result ≡ at + length (space ∷ decimal n) }
{
    wire::put(out, at, SPACE);
    put_digits(out, at + 1, DECIMAL_DIGITS, n)
}

// The same of a value, which may be below zero.
fn put_value_part(out: &mut [u8], at: usize, z: i64) -> usize
    requires { at < 2 ^ 39 }
    ensures text { out.new ≡ stored out.old at (space ∷ signed_decimal z) }
    ensures end { result ≡ at + length (space ∷ signed_decimal z) }
{
    if z < 0 {
        wire::put(out, at, SPACE);
        wire::put(out, at + 1, MINUS);
        return put_digits(out, at + 2, DECIMAL_DIGITS, arith::magnitude(z));
    }
    put_part(out, at, arith::magnitude(z))
}

// A letter and two numbers, from a position on.
fn put_two(out: &mut [u8], from: usize, letter: u8, a: u64, b: u64) -> usize
    requires { from < 2 ^ 32 }
    ensures { Written out.old out.new from result (letter ∷ spaced (decimal a ∷ decimal b ∷ [])) }
{
    wire::put(out, from, letter);
    let at = put_part(out, from + 1, a);
    put_part(out, at, b)
}

// The end of a line.
fn put_end(out: &mut [u8], at: usize) -> usize
    requires { at < 2 ^ 40 }
    ensures text { out.new ≡ stored out.old at (line_feed ∷ []) }
    ensures end { result ≡ at + length (line_feed ∷ []) }
{
    wire::put(out, at, LINE_FEED);
    at + 1
}

// The line of a refused move or sheet.
pub fn refused_line(out: &mut [u8], from: u32, line: u64, number: u64) -> usize
    ensures { Written out.old out.new from result (refused_text line number) }
{
    let at = put_two(out, from as usize, b'r', line, number);
    put_end(out, at)
}

// The line of a refused block.
pub fn block_refused_line(out: &mut [u8], from: u32, number: u64, offset: u64) -> usize
    ensures { Written out.old out.new from result (block_refused_text number offset) }
{
    let at = put_two(out, from as usize, b'e', number, offset);
    put_end(out, at)
}

// The line of a receipt.
pub fn receipt_line(out: &mut [u8], from: u32, call: u64, outcome: u64, count: u64) -> usize
    ensures { Written out.old out.new from result (receipt_text call outcome count) }
{
    let two = put_two(out, from as usize, b't', call, outcome);
    let at = put_part(out, two, count);
    put_end(out, at)
}

// A letter and four numbers, from a position on.
fn put_four(out: &mut [u8], from: usize, letter: u8, a: u64, b: u64, c: u64, d: u64) -> usize
    requires { from < 2 ^ 32 }
    ensures { Written out.old out.new from result (letter ∷ spaced (decimal a ∷ decimal b ∷ decimal c ∷ decimal d ∷ [])) }
{
    let two = put_two(out, from, letter, a, b);
    let three = put_part(out, two, c);
    put_part(out, three, d)
}

// The first line of a listing: the numbers of functions, opening cells, calls and keys.
pub fn counts_line(
    out: &mut [u8],
    from: u32,
    functions: u64,
    cells: u64,
    calls: u64,
    keys: u64,
) -> usize
    ensures { Written out.old out.new from result (counts_text functions cells calls keys) }
{
    let at = put_four(out, from as usize, b'n', functions, cells, calls, keys);
    put_end(out, at)
}

// The line of a cell.
pub fn cell_line(
    out: &mut [u8],
    from: u32,
    address: u64,
    field: u64,
    a: u64,
    b: u64,
    value: i64,
) -> usize
    ensures { Written out.old out.new from result (cell_text address field a b value) }
{
    let four = put_four(out, from as usize, b'k', address, field, a, b);
    let at = put_value_part(out, four, value);
    put_end(out, at)
}

// The numbers of the set bits of a row from a position of the buffer on, each a part.
fn put_bits(out: &mut [u8], at: usize, row: [u64; ROW_WORDS]) -> usize
    requires { at < 2 ^ 34 }
    ensures text { out.new ≡ stored out.old at (spaced (map decimal (passing (in_row row) 256 0))) }
    ensures end { result ≡ at + length (spaced (map decimal (passing (in_row row) 256 0))) }
{
    let mut end = at;
    for call in 0..ROW_BITS {
        if wire::row_test(row, call) {
            end = put_part(out, end, call as u64);
        }
    }
    end
}

// A call's line of a listing: its earlier conflicting calls in rising order.
pub fn row_line(out: &mut [u8], from: u32, call: u64, row: [u64; ROW_WORDS]) -> usize
    ensures { Written out.old out.new from result (row_text call row) }
{
    wire::put(out, from as usize, b'w');
    let first = put_part(out, from as usize + 1, call);
    let at = put_bits(out, first, row);
    put_end(out, at)
}
