// Runs exact arithmetic at the edges and writes what it gives, held to the file stdout beside src.
// That file is what `python3 edges.py > stdout` writes: Python's integers have no width, and its
// `//` is floor division.
#![tactic(auto)]

use arith::NoResult;

// Both ends of the range, the roots of 2^63, numbers around 0, and the sevens and twos of the
// worked examples of division.
const EDGES: [i64; 17] = [
    -9223372036854775808,
    -9223372036854775807,
    -4294967296,
    -3037000500,
    -7,
    -2,
    -1,
    0,
    1,
    2,
    7,
    2147483648,
    3037000499,
    3037000500,
    4611686018427387904,
    9223372036854775806,
    9223372036854775807,
];

// 64 bits around the sign bit and at both ends.
const WORDS: [u64; 6] = [
    0,
    1,
    9223372036854775807,
    9223372036854775808,
    9223372036854775809,
    18446744073709551615,
];

// 32 bits around the sign bit and at both ends.
const HALVES: [u32; 5] = [0, 1, 2147483647, 2147483648, 4294967295];

fn text(rt: &impl Print, s: &str) {
    let _ = rt.print(s);
}

fn decimal(rt: &impl Print, n: u64) {
    let _ = rt.print(n);
}

// z in decimal, after a space.
fn number(rt: &impl Print, z: i64) {
    let bits = arith::unsigned64(z);
    if z < 0 {
        text(rt, " -");
        decimal(rt, 0u64.wrapping_sub(bits));
    } else {
        text(rt, " ");
        decimal(rt, bits);
    }
}

fn result(rt: &impl Print, r: Result<i64, NoResult>) {
    match r {
        Ok(z) => number(rt, z),
        Err(NoResult::Overflow) => text(rt, " overflow"),
        Err(NoResult::ZeroDivisor) => text(rt, " zero"),
    }
}

fn answer(rt: &impl Print, yes: bool) {
    text(rt, if yes { " yes" } else { " no" });
}

// The two numbers, their sum, difference, product and quotient, whether the first is below the
// second, and whether they are the same.
fn pair(rt: &impl Print, a: i64, b: i64) {
    text(rt, "pair");
    number(rt, a);
    number(rt, b);
    result(rt, arith::add(a, b));
    result(rt, arith::sub(a, b));
    result(rt, arith::mul(a, b));
    result(rt, arith::div(a, b));
    answer(rt, a < b);
    answer(rt, a == b);
    text(rt, "\n");
}

// The integer that 64 bits name, and its bits again.
fn word_line(rt: &impl Print, n: u64) {
    let z = arith::signed64(n);
    text(rt, "word");
    number(rt, z);
    text(rt, " ");
    decimal(rt, arith::unsigned64(z));
    text(rt, "\n");
}

// The integer that 32 bits name.
fn half_line(rt: &impl Print, n: u32) {
    text(rt, "half");
    number(rt, arith::signed32(n));
    text(rt, "\n");
}

// Each pair of edges, then each word, then each half.
fn main(rt: HostRuntime) {
    for a in EDGES {
        for b in EDGES {
            pair(&rt, a, b);
        }
    }
    for n in WORDS {
        word_line(&rt, n);
    }
    for n in HALVES {
        half_line(&rt, n);
    }
}
