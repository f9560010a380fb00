// A call's entries in the plan: their number, whether they can be used to keep and to restore, the old values kept, and the cells restored.
ghost use Rattle.std.specs.Prelude.{◌≡◌, ◌&&◌, ◌||◌, not, ◌%◌, ◌≤◌, ◌<◌, eqb, ltb, pos, length, set};
ghost use Rattle.std.specs.Prelude.{if◌then◌else◌};
ghost use Rattle.block.specs.Limits.{max_calls, max_call_keys, max_keys, max_workers};
ghost use Rattle.machine.specs.Run.{fixed_sizes, entries_of, saved_in, with_saved};
ghost use Rattle.footprint.specs.Plan.{entry_cell, entry_writes};
ghost use Rattle.machine.specs.Step.{cell_at, restorable, restored, saved_of};
ghost use Rattle.machine.specs.Moves.{call_key_count};

use block::limits::{MAX_CALL_KEYS, MAX_KEYS};
use footprint::layout::{ENTRY_FLAGS, FIRST_ENTRY, KEY_COUNT, PLAN_WORDS, WRITES_FLAG};
use machine::layout::{FRAME_VALUES, REGISTERS};

// The number of a call's keys.
pub(crate) fn key_count(plan: &[u64], call: usize) -> usize
    requires { call < max_calls }
    ensures { result ≡ call_key_count plan.now call }
{
    wire::get_or(plan, PLAN_WORDS * call + KEY_COUNT, 0) as usize
}

// The number of an entry's cell.
pub(crate) fn cell_of(entry: u64) -> usize
    ensures { result ≡ entry_cell entry }
{
    (entry / ENTRY_FLAGS) as usize
}

// Whether the cell of an entry is written.
pub(crate) fn is_written(entry: u64) -> bool
    ensures { result ≡ entry_writes entry }
{
    WRITES_FLAG <= entry % ENTRY_FLAGS
}

// Whether one entry has a flag and, where it is written, a cell number of the table.
fn entry_allowed(entry: u64) -> bool
    ensures { result ≡ (not (eqb (entry % 4) 0) && (not (entry_writes entry) || ltb (entry_cell entry) max_keys)) }
{
    entry % ENTRY_FLAGS != 0 && (!is_written(entry) || cell_of(entry) < MAX_KEYS)
}

// The n entries of a call.
pub(crate) fn entries_of(plan: &[u64], call: usize, n: usize) -> &[u64]
    requires call_lt_max_calls { call < max_calls }
    requires n_le_max_call_keys { n ≤ max_call_keys }
    requires plan_in_bounds { fixed_sizes.plan ≤ length plan.now }
    ensures { result.now ≡ entries_of plan.now call n }
{
    let first = PLAN_WORDS * call + FIRST_ENTRY;
    &plan[first..first + n]
}

// Whether the n entries of a call can be used to keep and to restore.
pub(crate) fn restorable(plan: &[u64], call: usize, n: usize) -> bool
    requires call_lt_max_calls { call < max_calls }
    requires plan_in_bounds { fixed_sizes.plan ≤ length plan.now }
    ensures { result ≡ restorable n (entries_of plan.now call n) }
{
    n <= MAX_CALL_KEYS
        && entries_of(plan, call, n)
            .iter()
            .all(|entry| entry_allowed(*entry))
}

// The value to keep for an entry: its cell's where the entry is written, else 0.
fn old_value(cells: &[i64], entry: u64) -> i64
    ensures { result ≡ (if entry_writes entry then cell_at cells.now (entry_cell entry) else pos 0) }
{
    if is_written(entry) {
        wire::get_or(cells, cell_of(entry), 0)
    } else {
        0
    }
}

// The old values of a call's n entries, kept for the worker.
pub(crate) fn save(
    plan: &[u64],
    call: usize,
    n: usize,
    cells: &[i64],
    frames: &mut [i64],
    worker: usize,
)
    requires call_lt_max_calls { call < max_calls }
    requires n_le_max_call_keys { n ≤ max_call_keys }
    requires worker_lt_max_workers { worker < max_workers }
    requires plan_in_bounds { fixed_sizes.plan ≤ length plan.now }
    ensures { frames.new
        ≡ with_saved frames.old worker (saved_of (entries_of plan.now call n) cells.now) }
{
    let base = FRAME_VALUES * worker + REGISTERS;
    for (k, entry) in entries_of(plan, call, n).iter().enumerate() {
        wire::put(frames, base + k, old_value(cells, *entry));
    }
}

// The cell of an entry that is written gets its old value back.
fn put_back(cells: &mut [i64], entry: u64, old: i64)
    ensures { cells.new ≡ (if entry_writes entry then set cells.old (entry_cell entry) old else cells.old) }
{
    if is_written(entry) {
        wire::put(cells, cell_of(entry), old);
    }
}

// The cells of a call's n entries, restored to the values that the worker keeps.
pub(crate) fn restore(
    plan: &[u64],
    call: usize,
    n: usize,
    frames: &[i64],
    worker: usize,
    cells: &mut [i64],
)
    requires call_lt_max_calls { call < max_calls }
    requires n_le_max_call_keys { n ≤ max_call_keys }
    requires worker_lt_max_workers { worker < max_workers }
    requires plan_in_bounds { fixed_sizes.plan ≤ length plan.now }
    requires frames_in_bounds { fixed_sizes.frames ≤ length frames.now }
    ensures { cells.new
        ≡ restored (entries_of plan.now call n) (saved_in frames.now worker n) cells.old }
{
    let base = FRAME_VALUES * worker + REGISTERS;
    for (entry, old) in entries_of(plan, call, n)
        .iter()
        .zip(&frames[base..base + n])
    {
        put_back(cells, *entry, *old);
    }
}
