// The opening of a block: the head of its run, with its plan, its keys and its cells in the lent buffers, or its refusal.
#![tactic(auto)]

ghost use Rattle.std.specs.Prelude.{◌≡◌, ◌≤◌, ◌<◌, pos, length};
ghost use Rattle.wire.specs.Bytes.{repeated};
ghost use Rattle.wire.specs.RowOps.{row_from};
ghost use Rattle.block.specs.Limits.{max_calls};
ghost use Rattle.machine.specs.Run.{fixed_sizes, row_in};
ghost use Rattle.machine.specs.Waits.{waits_set};
ghost use Rattle.machine.specs.Opening.{head_of, opening_of};
ghost use Rattle.opening.specs.Opened.{sizes_for, OpenedAs, tested_for};

use block::Refusal;
use block::limits::MAX_WORKERS;
use footprint::layout::{FIRST_ROW_WORD, PLAN_WORDS};
use machine::Head;
use machine::layout::{STATUS_WORDS, WAIT_WORD, large_enough};
use wire::ROW_WORDS;

// A head whose workers hold no call.
#[tactic(auto, unfolding(wire::specs::Bytes::repeated))]
fn idle_head(workers: usize, calls: usize, cells: usize, start: usize) -> Head
    ensures { result ≡ head_of workers calls cells start }
{
    Head {
        workers,
        calls,
        cells,
        first_call: start,
        held: [0; MAX_WORKERS],
    }
}

// The refusals that come before the block is read: 20 and 13.
#[tactic(auto, unfolding(crate::specs::Opened::tested_for))]
fn tested(large: bool, workers: usize) -> Result<(), Refusal>
    ensures { result ≡ tested_for large workers }
{
    if !large {
        return Err(Refusal::Buffers);
    }
    if workers == 0 || MAX_WORKERS < workers {
        return Err(Refusal::Workers);
    }
    Ok(())
}

// The status of the calls, the seats and the frames become zero.
pub fn clear_states(status: &mut [u64], seats: &mut [u64], frames: &mut [i64])
    ensures status_after { status.new ≡ repeated (length status.old) 0 }
    ensures seats_after { seats.new ≡ repeated (length seats.old) 0 }
    ensures frames_after { frames.new ≡ repeated (length frames.old) (pos 0) }
{
    wire::clear(status, 0);
    wire::clear(seats, 0);
    wire::clear(frames, 0);
}

// The plan, the keys and the cells of a block that is not read become zero.
pub fn clear_prepared(plan: &mut [u64], keys: &mut [u64], cells: &mut [i64])
    ensures plan_after { plan.new ≡ repeated (length plan.old) 0 }
    ensures keys_after { keys.new ≡ repeated (length keys.old) 0 }
    ensures cells_after { cells.new ≡ repeated (length cells.old) (pos 0) }
{
    wire::clear(plan, 0);
    wire::clear(keys, 0);
    wire::clear(cells, 0);
}

// The row of a call's earlier conflicting calls; zero in a plan that is too short for it.
pub fn row_of(plan: &[u64], call: u8) -> [u64; ROW_WORDS]
    ensures { result ≡ row_from (row_in plan.now call) }
{
    let at = PLAN_WORDS * call as usize + FIRST_ROW_WORD;
    wire::row_from(&plan[at.min(plan.len())..])
}

// Each call carries the number of its earlier conflicting calls; none is finished.
fn set_waits(plan: &[u64], calls: usize, status: &mut [u64])
    requires calls_le_max_calls { calls ≤ max_calls }
    requires plan_in_bounds { fixed_sizes.plan ≤ length plan.now }
    requires status_value { status.old ≡ repeated (length status.old) 0 }
    ensures { status.new ≡ waits_set plan.now calls status.old }
{
    for call in 0..calls {
        let count = wire::row_count(row_of(plan, call as u8), call);
        wire::put(status, STATUS_WORDS * call + WAIT_WORD, count);
    }
}

// The head of a block's run for 1 to 8 workers, every call waiting; or its refusal: 20 if a buffer is too short, then 13, then 1 to 12. The
// buffers are zero if it is refused.
pub fn open(
    file: &[u8],
    workers: usize,
    plan: &mut [u64],
    keys: &mut [u64],
    cells: &mut [i64],
    status: &mut [u64],
    seats: &mut [u64],
    frames: &mut [i64],
) -> Result<Head, Refusal>
    ensures { OpenedAs result plan.new keys.new cells.new status.new seats.new
        frames.new
        (opening_of
        (sizes_for (length plan.old) (length keys.old) (length cells.old) (length status.old)
        (length seats.old) (length frames.old)) file.now workers) }
{
    clear_states(status, seats, frames);
    let large = large_enough(
        plan.len(),
        keys.len(),
        cells.len(),
        status.len(),
        seats.len(),
        frames.len(),
    );
    if let Err(why) = tested(large, workers) {
        clear_prepared(plan, keys, cells);
        return Err(why);
    }
    let p = analysis::prepare(file, plan, keys, cells)?;
    set_waits(plan, p.calls, status);
    Ok(idle_head(workers, p.calls, p.cells, p.first_call))
}
