// A worker's seat and frame: its call's place, count and registers.
ghost use Rattle.std.specs.Prelude.{◌≡◌, ◌≤◌, ◌<◌, length};
ghost use Rattle.block.specs.Limits.{max_workers};
ghost use Rattle.machine.specs.Run.{count_in, fixed_sizes, place_in, regs_in, with_regs, with_seat};

use machine::layout::{FRAME_VALUES, REGISTERS, SEAT_COUNT, SEAT_WORDS};

// The place of a worker's call.
pub(crate) fn place_of(seats: &[u64], worker: usize) -> u64
    requires worker_lt_max_workers { worker < max_workers }
    requires seats_in_bounds { fixed_sizes.seats ≤ length seats.now }
    ensures { result ≡ place_in seats.now worker }
{
    seats[SEAT_WORDS * worker]
}

// Its count.
pub(crate) fn count_of(seats: &[u64], worker: usize) -> u64
    requires worker_lt_max_workers { worker < max_workers }
    requires seats_in_bounds { fixed_sizes.seats ≤ length seats.now }
    ensures { result ≡ count_in seats.now worker }
{
    seats[SEAT_WORDS * worker + SEAT_COUNT]
}

// The place and the count, stored.
pub(crate) fn put_seat(seats: &mut [u64], worker: usize, place: u64, count: u64)
    requires worker_lt_max_workers { worker < max_workers }
    requires seats_in_bounds { fixed_sizes.seats ≤ length seats.old }
    ensures { seats.new ≡ with_seat seats.old worker place count }
{
    let at = SEAT_WORDS * worker;
    seats[at] = place;
    seats[at + SEAT_COUNT] = count;
}

// The registers of a worker's call.
pub(crate) fn regs_of(frames: &[i64], worker: usize) -> [i64; REGISTERS]
    requires worker_lt_max_workers { worker < max_workers }
    requires frames_in_bounds { fixed_sizes.frames ≤ length frames.now }
    ensures { result ≡ regs_in frames.now worker }
{
    let at = FRAME_VALUES * worker;
    // Stays: by index (b). With copy_from_slice here and in put_regs a move took 46 instructions more (callgrind, the block `all conflict`).
    let mut regs = [0; REGISTERS];
    for k in 0..REGISTERS {
        regs[k] = frames[at + k];
    }
    regs
}

// The registers, stored.
pub(crate) fn put_regs(frames: &mut [i64], worker: usize, regs: [i64; REGISTERS])
    requires worker_lt_max_workers { worker < max_workers }
    requires frames_in_bounds { fixed_sizes.frames ≤ length frames.old }
    ensures { frames.new ≡ with_regs frames.old worker regs }
{
    let at = FRAME_VALUES * worker;
    for k in 0..REGISTERS {
        frames[at + k] = regs[k];
    }
}
