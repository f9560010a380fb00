// Where the words of a lent run's status, seats and frames stand, and the sizes of the lent buffers. Each number is the one that the definitions use.
ghost use Rattle.std.specs.Prelude.{◌≡◌};
ghost use Rattle.machine.specs.Run.{large_enough};

use block::limits::{MAX_CALL_KEYS, MAX_CALLS, MAX_KEYS, MAX_WORKERS};
use footprint::layout::{KEY_WORDS, PLAN_WORDS};

// A call has STATUS_WORDS words of the status: its state, its outcome, its count, and the number of its earlier conflicting
// calls still unfinished.
pub const STATUS_WORDS: usize = 4;

pub const STATE_WORD: usize = 0;

pub const OUTCOME_WORD: usize = 1;

pub const COUNT_WORD: usize = 2;

pub const WAIT_WORD: usize = 3;

// The states.
pub const WAITING: u64 = 0;

pub const RUNNING: u64 = 1;

pub const FINISHED: u64 = 2;

// A worker has SEAT_WORDS words of the seats: the first is its call's place (0 at its entry, p + 1 at instruction p), the next its count, and
// behind them is room for return points.
pub const SEAT_WORDS: usize = 16;

pub const SEAT_COUNT: usize = 1;

// A worker has FRAME_VALUES values of the frames: its call's registers, and behind them the old values of its call's entries.
pub const REGISTERS: usize = 8;

pub const FRAME_VALUES: usize = REGISTERS + MAX_CALL_KEYS;

// "the fixed size for the limits above", of each lent buffer.
pub const PLAN_SIZE: usize = MAX_CALLS * PLAN_WORDS;

pub const KEYS_SIZE: usize = MAX_KEYS * KEY_WORDS;

pub const CELLS_SIZE: usize = MAX_KEYS;

pub const STATUS_SIZE: usize = MAX_CALLS * STATUS_WORDS;

pub const SEATS_SIZE: usize = MAX_WORKERS * SEAT_WORDS;

pub const FRAMES_SIZE: usize = MAX_WORKERS * FRAME_VALUES;

// Whether buffers of these lengths are large enough. 20: "a lent buffer .. shorter than the fixed size"
pub fn large_enough(
    plan: usize,
    keys: usize,
    cells: usize,
    status: usize,
    seats: usize,
    frames: usize,
) -> bool
    ensures { result
        ≡ large_enough (record { plan = plan; keys = keys; cells = cells; status = status; seats = seats; frames = frames }) }
{
    (PLAN_SIZE <= plan)
        & (KEYS_SIZE <= keys)
        & (CELLS_SIZE <= cells)
        & (STATUS_SIZE <= status)
        & (SEATS_SIZE <= seats)
        & (FRAMES_SIZE <= frames)
}
