// Opens blocks, makes moves and serial runs on lent runs and asks for their sheets, with damages in between, as the records of standard input say, and
// writes what each answers with a hash of the run as it stands then, or of the sheet's output. tools/runner/src/vectors/stream.rs has the form of the records.
#![tactic(auto)]

mod answer;
mod change;
mod close;
mod digest;
mod play;

use crate::change::{Lent, Room};

// A record has four words of eight bytes: its kind and three parts.
const RECORD_BYTES: usize = 32;

const BYTES: u64 = 0;

const OPEN: u64 = 4;

const WORD: u64 = 8;

const HEAD: u64 = 9;

// One record: a change of the block, of a buffer, or of what is lent; or an opening, a move, a serial run or a sheet.
fn turn(rt: &impl Print, lent: Lent, record: &[u8], block: &mut [u8], room: &mut Room<'_>) -> Lent {
    let kind = wire::read_le::<8>(record, 0);
    if kind == BYTES {
        change::put_bytes(record, block);
        return lent;
    }
    if kind == WORD {
        change::put_word(record, room);
        return lent;
    }
    if kind < OPEN {
        return change::lend(lent, record);
    }
    if kind == HEAD {
        return change::damage(lent, record);
    }
    play::play(rt, lent, record, block, room)
}

// Every record of the input, of which there are at most as many as the loop counts.
fn run(rt: &(impl Input + Print), block: &mut [u8], room: &mut Room<'_>) {
    let mut lent = change::nothing_lent();
    for _ in 0..u64::MAX {
        let mut record = [0u8; RECORD_BYTES];
        let n = host::read_bytes(rt, &mut record, RECORD_BYTES);
        if n < RECORD_BYTES {
            return;
        }
        lent = turn(rt, lent, &record, block, room);
    }
}

// The buffers are longer than their fixed sizes by eight, so that longer ones can be lent; the block's by one record.
fn main(rt: HostRuntime) {
    let mut block = [0u8; 65552];
    let mut plan = [0u64; 8200];
    let mut keys = [0u64; 2056];
    let mut cells = [0i64; 1032];
    let mut status = [0u64; 1032];
    let mut seats = [0u64; 136];
    let mut frames = [0i64; 264];
    let mut room = Room {
        plan: &mut plan,
        keys: &mut keys,
        cells: &mut cells,
        status: &mut status,
        seats: &mut seats,
        frames: &mut frames,
    };
    run(&rt, &mut block, &mut room);
}
