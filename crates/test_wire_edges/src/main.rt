// Runs the functions of wire at their edges and writes what they answer, one line a case.
#![tactic(auto)]

use wire::ROW_BITS;

const MAX64: u64 = 18446744073709551615;

fn text(rt: &impl Print, s: &str) {
    let _ = rt.print(s);
}

fn decimal(rt: &impl Print, n: u64) {
    let _ = rt.print(n);
}

fn space(rt: &impl Print) {
    text(rt, " ");
}

fn end(rt: &impl Print) {
    text(rt, "\n");
}

fn number(rt: &impl Print, n: u64) {
    space(rt);
    decimal(rt, n);
}

fn flag(rt: &impl Print, b: bool) {
    number(rt, u64::from(b));
}

// A value in decimal: one below zero by its sign and what its bits lack to 2^64.
fn value(rt: &impl Print, z: i64) {
    let mut bits = [0u8; 8];
    wire::put_i64(&mut bits, 0, z);
    let n = wire::read_le::<8>(&bits, 0);
    if z < 0 {
        if 0 < n {
            text(rt, " -");
            decimal(rt, MAX64 - n + 1);
        }
        return;
    }
    number(rt, n);
}

// The bytes of a slice as hexadecimal digits.
fn bytes(rt: &impl Print, s: &[u8]) {
    space(rt);
    for b in s {
        let _ = print!(rt; "{:02x}", *b);
    }
}

fn read_at(rt: &impl Print, s: &[u8], at: usize) {
    text(rt, "read");
    number(rt, at as u64);
    number(rt, u64::from(wire::get_or(s, at, 0)));
    number(rt, wire::read_le::<2>(s, at));
    number(rt, wire::read_le::<4>(s, at));
    number(rt, wire::read_le::<8>(s, at));
    value(rt, wire::get_i64(s, at));
    end(rt);
}

fn reads(rt: &impl Print) {
    let s = b"\x01\x02\x03\x04\x05\x06\x07\x80\xff\xff\xff\xff\xff\xff\xff\xff\xfe\x7f";
    read_at(rt, s, 0);
    read_at(rt, s, 1);
    read_at(rt, s, 7);
    read_at(rt, s, 8);
    read_at(rt, s, 10);
    read_at(rt, s, 11);
    read_at(rt, s, 14);
    read_at(rt, s, 15);
    read_at(rt, s, 16);
    read_at(rt, s, 17);
    read_at(rt, s, 18);
    read_at(rt, s, 19);
    read_at(rt, s, 9223372036854775807);
    read_at(rt, s, 18446744073709551608);
    read_at(rt, s, 18446744073709551615);
    let none = b"";
    read_at(rt, none, 0);
}

// One write of each width into a buffer of ten bytes.
fn write_at(rt: &impl Print, at: usize, v: u64) {
    text(rt, "write");
    number(rt, at as u64);
    let mut one = [238u8; 10];
    wire::put(&mut one, at, 17);
    bytes(rt, &one);
    let mut two = [238u8; 10];
    wire::write_le::<2>(&mut two, at, v);
    bytes(rt, &two);
    let mut four = [238u8; 10];
    wire::write_le::<4>(&mut four, at, v);
    bytes(rt, &four);
    let mut eight = [238u8; 10];
    wire::write_le::<8>(&mut eight, at, v);
    bytes(rt, &eight);
    end(rt);
}

fn writes(rt: &impl Print) {
    let v = 1234605616436508552;
    write_at(rt, 0, v);
    write_at(rt, 1, v);
    write_at(rt, 2, v);
    write_at(rt, 3, v);
    write_at(rt, 6, v);
    write_at(rt, 7, v);
    write_at(rt, 8, v);
    write_at(rt, 9, v);
    write_at(rt, 10, v);
    write_at(rt, 11, v);
    write_at(rt, 18446744073709551608, v);
    write_at(rt, 18446744073709551615, v);
    write_at(rt, 0, MAX64);
    write_at(rt, 0, 65536);
}

// A value written, its bytes, and the value read back.
fn value_at(rt: &impl Print, at: usize, z: i64) {
    text(rt, "value");
    number(rt, at as u64);
    value(rt, z);
    let mut s = [238u8; 10];
    wire::put_i64(&mut s, at, z);
    bytes(rt, &s);
    value(rt, wire::get_i64(&s, at));
    end(rt);
}

fn values(rt: &impl Print) {
    value_at(rt, 0, 0);
    value_at(rt, 0, -1);
    value_at(rt, 1, -2);
    value_at(rt, 2, 9223372036854775807);
    value_at(rt, 2, -9223372036854775808);
    value_at(rt, 2, -9223372036854775807);
    value_at(rt, 2, 255);
    value_at(rt, 2, -256);
    value_at(rt, 3, -1);
    value_at(rt, 10, -1);
    value_at(rt, 18446744073709551615, -1);
}

// A write, a read back, a read past the end, and the same after clearing.
fn word_at(rt: &impl Print, i: usize) {
    text(rt, "word");
    number(rt, i as u64);
    let mut words = [7u64, 8, 9];
    wire::put(&mut words, i, MAX64);
    number(rt, wire::get_or(&words, 0, 0));
    number(rt, wire::get_or(&words, 2, 0));
    number(rt, wire::get_or(&words, 3, 0));
    number(rt, wire::get_or(&words, i, 0));
    wire::clear(&mut words, 0);
    number(rt, wire::get_or(&words, 0, 0));
    number(rt, wire::get_or(&words, 2, 0));
    end(rt);
}

fn held_at(rt: &impl Print, i: usize) {
    text(rt, "held");
    number(rt, i as u64);
    let mut values = [-7i64, 8, -9];
    wire::put(&mut values, i, -9223372036854775808);
    value(rt, wire::get_or(&values, 0, 0));
    value(rt, wire::get_or(&values, 2, 0));
    value(rt, wire::get_or(&values, 3, 0));
    value(rt, wire::get_or(&values, i, 0));
    wire::clear(&mut values, 0);
    value(rt, wire::get_or(&values, 0, 0));
    value(rt, wire::get_or(&values, 2, 0));
    end(rt);
}

fn slices(rt: &impl Print) {
    word_at(rt, 0);
    word_at(rt, 2);
    word_at(rt, 3);
    word_at(rt, 18446744073709551615);
    held_at(rt, 0);
    held_at(rt, 2);
    held_at(rt, 3);
    held_at(rt, 18446744073709551615);
    let mut s = [255u8; 10];
    wire::clear(&mut s, 0);
    text(rt, "clear");
    bytes(rt, &s);
    end(rt);
}

// The set bits of a row, one after the other.
fn walk(rt: &impl Print, row: [u64; 4]) {
    for i in 0..ROW_BITS {
        if wire::row_test(row, i) {
            number(rt, i as u64);
        }
    }
}

// A bit set in a row of two, tested at its place and beside it, and the walk.
fn bit_at(rt: &impl Print, i: usize) {
    text(rt, "bit");
    number(rt, i as u64);
    let row = wire::row_set([2u64, 0, 0, 4611686018427387904], i);
    flag(rt, wire::row_test(row, i));
    flag(rt, wire::row_test(row, i / 2));
    flag(rt, wire::row_test(row, 1));
    flag(rt, wire::row_test(row, 255));
    walk(rt, row);
    end(rt);
}

fn count_at(rt: &impl Print, row: [u64; 4], below: usize) {
    text(rt, "count");
    number(rt, below as u64);
    number(rt, wire::row_count(row, below));
    end(rt);
}

fn rows(rt: &impl Print) {
    bit_at(rt, 0);
    bit_at(rt, 1);
    bit_at(rt, 63);
    bit_at(rt, 64);
    bit_at(rt, 127);
    bit_at(rt, 128);
    bit_at(rt, 191);
    bit_at(rt, 192);
    bit_at(rt, 255);
    bit_at(rt, 256);
    bit_at(rt, 18446744073709551615);
    let low = wire::row_set(wire::row_set([0u64; 4], 0), 63);
    let high = wire::row_set(wire::row_set([0u64; 4], 64), 255);
    let row = wire::row_union(low, high);
    text(rt, "union");
    walk(rt, row);
    walk(rt, wire::row_union(row, row));
    end(rt);
    count_at(rt, row, 0);
    count_at(rt, row, 1);
    count_at(rt, row, 63);
    count_at(rt, row, 64);
    count_at(rt, row, 65);
    count_at(rt, row, 128);
    count_at(rt, row, 255);
    count_at(rt, row, 256);
    count_at(rt, row, 257);
    count_at(rt, row, 18446744073709551615);
    let full = [18446744073709551615u64; 4];
    count_at(rt, full, 1);
    count_at(rt, full, 127);
    count_at(rt, full, 191);
    count_at(rt, full, 255);
    count_at(rt, full, 256);
    count_at(rt, [0u64; 4], 256);
}

fn main(rt: HostRuntime) {
    reads(&rt);
    writes(&rt);
    values(&rt);
    slices(&rt);
    rows(&rt);
}
