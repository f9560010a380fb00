// BEGIN, STEP and CANCEL by value, made on a head of their own that they lend: the contracts are those of `moves`.
// Stays: three functions, by the project's rule, as those that they call.
ghost use Rattle.std.specs.Prelude.{◌≡◌};
ghost use Rattle.machine.specs.Moves.{begin_of, cancel_of, step_of};
ghost use Rattle.moves.specs.Lent.{lent, moved_by};

use crate::{begin_in, cancel_in, step_in};
use machine::{Answer, Head};

// BEGIN(worker, call), by `begin_in`.
pub fn begin_lending(
    mut head: Head,
    plan: &[u64],
    keys: &[u64],
    cells: &[i64],
    status: &mut [u64],
    seats: &mut [u64],
    frames: &mut [i64],
    worker: usize,
    call: usize,
) -> Result<Head, Answer>
    ensures { moved_by head result
        (λ h. lent h plan.now keys.now cells.now status.new seats.new frames.new)
        ≡ begin_of
        (lent head plan.now keys.now cells.now status.old seats.old
        frames.old) worker call }
{
    begin_in(
        &mut head, plan, keys, cells, status, seats, frames, worker, call,
    )?;
    Ok(head)
}

// STEP(worker), by `step_in`.
pub fn step_lending(
    mut head: Head,
    block: &[u8],
    plan: &[u64],
    keys: &[u64],
    cells: &mut [i64],
    status: &mut [u64],
    seats: &mut [u64],
    frames: &mut [i64],
    worker: usize,
) -> Result<Head, Answer>
    ensures { moved_by head result
        (λ h. lent h plan.now keys.now cells.new status.new seats.new frames.new)
        ≡ step_of block.now
        (lent head plan.now keys.now cells.old status.old seats.old
        frames.old) worker }
{
    step_in(
        &mut head, block, plan, keys, cells, status, seats, frames, worker,
    )?;
    Ok(head)
}

// CANCEL(worker), by `cancel_in`.
pub fn cancel_lending(
    mut head: Head,
    plan: &[u64],
    keys: &[u64],
    cells: &mut [i64],
    status: &mut [u64],
    seats: &[u64],
    frames: &[i64],
    worker: usize,
) -> Result<Head, Answer>
    ensures { moved_by head result
        (λ h. lent h plan.now keys.now cells.new status.new seats.now frames.now)
        ≡ cancel_of
        (lent head plan.now keys.now cells.old status.old seats.now
        frames.now) worker }
{
    cancel_in(&mut head, plan, keys, cells, status, seats, frames, worker)?;
    Ok(head)
}
