// Little-endian numbers in byte slices, total reads and writes of slices, and rows of 256 bits as four words.
// Past the end of a slice a read gives 0 and a write changes nothing.
#![tactic(auto)]

pub mod decimal;

ghost use Rattle.std.specs.Prelude.{◌≡◌, ◌+◌, ◌%◌, ◌^◌, ◌<◌, ◌≤◌, min, length, get_or, set};
ghost use Rattle.arith.specs.Exact.{signed, unsigned};
ghost use Rattle.wire.specs.Bytes.{read_le, write_le, repeated};
ghost use Rattle.wire.specs.Rows.{in_row, in_word, row_bits};
ghost use Rattle.wire.specs.RowOps.{row_from, with_bit, union_of, count_of};

// The element at a position, or the default past the end.
pub fn get_or<T: Copy>(s: &[T], i: usize, default: T) -> T
    ensures { result ≡ get_or s.now i default }
{
    if i < s.len() { s[i] } else { default }
}

// An element stored at a position.
pub fn put<T: Copy>(s: &mut [T], i: usize, v: T)
    ensures { s.new ≡ set s.old i v }
{
    if i < s.len() {
        s[i] = v;
    }
}

// Every element becomes the same one.
pub fn clear<T: Copy>(s: &mut [T], zero: T)
    ensures { s.new ≡ repeated (length s.old) zero }
{
    for x in s.iter_mut() {
        *x = zero;
    }
}

// The number in the n bytes at a position, which all lie inside the slice.
fn read_within(s: &[u8], at: usize, n: usize) -> u64
    requires inside { at + n ≤ length s.now }
    requires short { n ≤ 8 }
    ensures { result ≡ read_le n s.now at }
{
    let mut number = 0;
    for i in 0..n {
        number += u64::from(s[at + i]) << (8 * i);
    }
    number
}

// The same where the end of the slice is among them. Out of the way, so that the case above stays small.
#[cold]
#[inline(never)]
fn read_across(s: &[u8], at: usize, n: usize) -> u64
    requires inside { at < length s.now }
    requires short { n ≤ 8 }
    ensures { result ≡ read_le n s.now at }
{
    let mut number = 0;
    for i in 0..n {
        number += u64::from(get_or(s, at + i, 0)) << (8 * i);
    }
    number
}

// The number in the N bytes at a position, at most eight, lowest byte first.
// Where they all lie inside the slice, no test is left, so they are one load.
pub fn read_le<const N: usize>(s: &[u8], at: usize) -> u64
    ensures { result ≡ read_le (min N 8) s.now at }
{
    if s.len() <= at {
        return 0;
    }
    let n = N.min(8);
    if n <= s.len() - at {
        read_within(s, at, n)
    } else {
        read_across(s, at, n)
    }
}

// The n low bytes of a number stored at a position, where they all lie inside the slice.
fn write_within(s: &mut [u8], at: usize, n: usize, v: u64)
    requires { at + n ≤ length s.old }
    ensures { s.new ≡ write_le n s.old at v }
{
    let mut rest = v;
    for i in 0..n {
        s[at + i] = (rest % 256) as u8;
        rest /= 256;
    }
}

// The same where the end of the slice is among them.
#[cold]
#[inline(never)]
fn write_across(s: &mut [u8], at: usize, n: usize, v: u64)
    requires inside { at < length s.old }
    requires short { n ≤ 8 }
    ensures { s.new ≡ write_le n s.old at v }
{
    let mut rest = v;
    for i in 0..n {
        put(s, at + i, (rest % 256) as u8);
        rest /= 256;
    }
}

// The N low bytes of a number, at most eight, stored at a position.
pub fn write_le<const N: usize>(s: &mut [u8], at: usize, v: u64)
    ensures { s.new ≡ write_le (min N 8) s.old at v }
{
    if s.len() <= at {
        return;
    }
    let n = N.min(8);
    if n <= s.len() - at {
        write_within(s, at, n, v)
    } else {
        write_across(s, at, n, v)
    }
}

// The value in the eight bytes at a position, in two's complement.
pub fn get_i64(s: &[u8], at: usize) -> i64
    ensures { result ≡ signed 64 (read_le 8 s.now at) }
{
    arith::signed64(read_le::<8>(s, at))
}

// The eight bytes of a value in two's complement, stored at a position.
pub fn put_i64(s: &mut [u8], at: usize, v: i64)
    ensures { s.new ≡ write_le 8 s.old at (unsigned 64 v) }
{
    write_le::<8>(s, at, arith::unsigned64(v))
}

// A row is 256 bits, in words of 64.
pub const ROW_BITS: usize = 256;

pub const ROW_WORDS: usize = 4;

pub const WORD_BITS: usize = 64;

// The word in which only the bit of a position is set.
fn mask(i: usize) -> u64
    ensures { result ≡ 2 ^ (i % 64) }
{
    1 << (i % WORD_BITS)
}

// Whether the bit of a position is set in its word of a row.
pub fn word_test(word: u64, i: usize) -> bool
    ensures { result ≡ in_word word (i % 64) }
{
    word & mask(i) != 0
}

// The row that the first four words are; an empty row where there are fewer.
pub fn row_from(words: &[u64]) -> [u64; ROW_WORDS]
    ensures { result ≡ row_from words.now }
{
    if words.len() < ROW_WORDS {
        return [0; ROW_WORDS];
    }
    [words[0], words[1], words[2], words[3]]
}

// Whether a bit of a row is set; there is none past the row.
pub fn row_test(row: [u64; ROW_WORDS], i: usize) -> bool
    ensures { result ≡ in_row row i }
{
    if ROW_BITS <= i {
        return false;
    }
    word_test(row[i / WORD_BITS], i)
}

// The row with one bit set as well; past the row nothing changes.
pub fn row_set(mut row: [u64; ROW_WORDS], i: usize) -> [u64; ROW_WORDS]
    ensures { result ≡ with_bit row i }
{
    if i < ROW_BITS {
        let w = i / WORD_BITS;
        row[w] |= mask(i);
    }
    row
}

// The bits that are set in either row.
pub fn row_union(a: [u64; ROW_WORDS], b: [u64; ROW_WORDS]) -> [u64; ROW_WORDS]
    ensures { result ≡ union_of a b }
{
    [a[0] | b[0], a[1] | b[1], a[2] | b[2], a[3] | b[3]]
}

// How many of the first n bits of a row are set: those of the whole words, and those of the word that they end in.
fn count_within(row: [u64; ROW_WORDS], n: usize) -> u64
    requires { n ≤ row_bits }
    ensures { result ≡ count_of (in_row row) n }
{
    let whole = n / WORD_BITS;
    let mut count = 0;
    for w in 0..whole {
        count += u64::from(row[w].count_ones());
    }
    if whole == ROW_WORDS {
        return count;
    }
    count + u64::from((row[whole] % mask(n)).count_ones())
}

// How many bits of a row below a position are set; there are none past the row.
pub fn row_count(row: [u64; ROW_WORDS], below: usize) -> u64
    ensures { result ≡ count_of (in_row row) below }
{
    if ROW_BITS < below {
        return count_within(row, ROW_BITS);
    }
    count_within(row, below)
}
