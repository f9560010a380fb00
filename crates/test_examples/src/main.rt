// Lists and runs the titled blocks of standard input: a title behind its length in four bytes, little-endian, then a block and its moves
// likewise. For each it prints `# ` and the title, what `inspect` prints of the block, and what REGISTER prints of it with these moves.
#![tactic(auto)]

use host::{Exchange, FILE_BYTES};
use printing::Output;

const TITLE_BYTES: usize = 100;

// The moves of a refused block are passed over; none is longer.
const MOVES_BYTES: usize = 131072;

// More blocks than any input here has.
const MAX_BLOCKS: usize = 1000;

// Prints the next title; none where there was none.
fn print_title(rt: &(impl Input + Print + Eprint), title: &mut [u8]) -> Option<Exchange> {
    let mut transcript = [0u8; 0];
    let part = host::read_part(rt, title).ok()?;
    let marked = host::print(rt, Exchange::new(), b"# ", &mut transcript);
    let titled = host::print(rt, marked, &title[..part.length], &mut transcript);
    Some(host::print(rt, titled, b"\n", &mut transcript))
}

// Lists and runs the next block, with its moves; one that is missing or longer than the buffer is read as empty, and so are missing moves. Answers
// whether nothing failed.
fn run_in(
    rt: &(impl Input + Print + Eprint),
    x: Exchange,
    file: &mut [u8],
    moves: &mut [u8],
) -> bool {
    let mut transcript = [0u8; 0];
    let size = match host::read_part(rt, file) {
        Ok(part) => part.length,
        Err(_) => 0,
    };
    let length = host::next_length(rt).unwrap_or(0);
    let block = &file[..size];
    let listed = inspect_run::print_listing(rt, x, block, &mut transcript);
    let ran = register_run::run(
        rt,
        Output::Text,
        block,
        listed,
        length as u32,
        &mut transcript,
    );
    if ran.input_ended.is_none() {
        host::read_bytes(rt, moves, length);
    }
    ran.exchange.ok
}

fn run_next(rt: &(impl Input + Print + Eprint)) -> bool {
    let mut title = [0u8; TITLE_BYTES];
    let mut file = [0u8; FILE_BYTES];
    let mut moves = [0u8; MOVES_BYTES];
    // Where there is no title, what stands behind it is read all the same, and nothing is printed.
    let titled = print_title(rt, &mut title).unwrap_or(Exchange {
        ok: false,
        ..Exchange::new()
    });
    run_in(rt, titled, &mut file, &mut moves)
}

fn main(rt: HostRuntime) {
    for _ in 0..MAX_BLOCKS {
        if !run_next(&rt) {
            return;
        }
    }
}
