// Runs the blocks of standard input as REGISTER does, each with its moves: a block behind its length in four bytes, little-endian, then
// its moves likewise.
#![tactic(auto)]

use host::{Exchange, FILE_BYTES};
use printing::Output;

// More blocks than any input here has.
const MAX_BLOCKS: usize = 1000000;

// The moves of a refused block are passed over; none is longer.
const MOVES_BYTES: usize = 131072;

// Runs the next block with its moves in these buffers. Answers whether there was one and nothing failed.
fn run_in(rt: &(impl Input + Print + Eprint), file: &mut [u8], moves: &mut [u8]) -> bool {
    let mut transcript = [0u8; 0];
    let part = host::read_part(rt, file).ok();
    let told = host::next_length(rt);
    // What is missing is read as empty, and nothing is printed of it.
    let x = Exchange {
        ok: part.is_some() && told.is_some(),
        ..Exchange::new()
    };
    let size = part.map_or(0, |part| part.length);
    let length = told.unwrap_or(0);
    let ran = register_run::run(
        rt,
        Output::Text,
        &file[..size],
        x,
        length as u32,
        &mut transcript,
    );
    if ran.input_ended.is_none() {
        host::read_bytes(rt, moves, length);
    }
    ran.exchange.ok
}

fn run_next(rt: &(impl Input + Print + Eprint)) -> bool {
    let mut file = [0u8; FILE_BYTES];
    let mut moves = [0u8; MOVES_BYTES];
    run_in(rt, &mut file, &mut moves)
}

fn main(rt: HostRuntime) {
    for _ in 0..MAX_BLOCKS {
        if !run_next(&rt) {
            return;
        }
    }
}
