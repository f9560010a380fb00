// Lists the blocks of standard input, each behind its length in four bytes, little-endian.
#![tactic(auto)]

use host::{Exchange, FILE_BYTES};

// More blocks than any input here has.
const MAX_BLOCKS: usize = 1000000;

// Reads and lists the next block in this buffer. Answers whether there was one and nothing failed.
fn list_in(rt: &(impl Input + Print + Eprint), file: &mut [u8]) -> bool {
    let mut transcript = [0u8; 0];
    let Ok(part) = host::read_part(rt, file) else {
        return false;
    };
    inspect_run::print_listing(rt, Exchange::new(), &file[..part.length], &mut transcript).ok
}

fn list_next(rt: &(impl Input + Print + Eprint)) -> bool {
    let mut file = [0u8; FILE_BYTES];
    list_in(rt, &mut file)
}

fn main(rt: HostRuntime) {
    for _ in 0..MAX_BLOCKS {
        if !list_next(&rt) {
            return;
        }
    }
}
