// A hash of a lent run: FNV-1a with words of 64 bits in the place of bytes, over the head and the six buffers; and of an output.
use machine::Head;
use moves::Buffers;

const BASIS: u64 = 14695981039346656037;

// The product with 2^40 + 435 modulo 2^64, as a sum of shifts: 435 is 256 + 128 + 32 + 16 + 2 + 1.
fn times(x: u64) -> u64 {
    let low = x.wrapping_add(x << 1);
    let middle = (x << 4).wrapping_add(x << 5);
    let high = (x << 7).wrapping_add(x << 8);
    let sum = low.wrapping_add(middle).wrapping_add(high);
    sum.wrapping_add(x << 40)
}

// One more word.
fn mix(hash: u64, word: u64) -> u64 {
    times(hash ^ word)
}

fn words(start: u64, s: &[u64]) -> u64 {
    s.iter().fold(start, |hash, x| mix(hash, *x))
}

// The bytes of an output, each as a word.
pub(crate) fn bytes(s: &[u8]) -> u64 {
    s.iter().fold(BASIS, |hash, x| mix(hash, u64::from(*x)))
}

// Values by their 64 bits.
fn values(start: u64, s: &[i64]) -> u64 {
    s.iter()
        .fold(start, |hash, x| mix(hash, arith::unsigned64(*x)))
}

// What the workers hold.
fn helds(start: u64, held: [u16; 8]) -> u64 {
    held.iter().fold(start, |hash, x| mix(hash, u64::from(*x)))
}

fn head_words(head: Head) -> u64 {
    let workers = mix(BASIS, head.workers as u64);
    let calls = mix(workers, head.calls as u64);
    let cells = mix(calls, head.cells as u64);
    let first = mix(cells, head.first_call as u64);
    helds(first, head.held)
}

// The head's workers, calls, cells, first, and what each worker holds; then plan, keys, cells, status, seats and frames.
pub(crate) fn digest(head: Head, run: &Buffers<'_>) -> u64 {
    let planned = words(head_words(head), run.plan);
    let keyed = words(planned, run.keys);
    let celled = values(keyed, run.cells);
    let stated = words(celled, run.status);
    values(words(stated, run.seats), run.frames)
}
