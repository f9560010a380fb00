// BEGIN, STEP and CANCEL on a run whose head is lent too: each takes the head out, makes the move by value, stores the head back and answers.
// Stays: three functions, by the project's rule: BEGIN, STEP and CANCEL by value first, then a thin one for each over the lent head.
#![tactic(auto)]

pub mod lender;

ghost use Rattle.std.specs.Prelude.{◌≡◌, OnErr};
ghost use Rattle.machine.specs.Moves.{begin_of, cancel_of, step_of};
ghost use Rattle.moves.specs.Lent.{lent, moved};

use machine::{Answer, Head};
use moves::begin::begin;
use moves::cancel::cancel;
use moves::step::step;

// BEGIN(worker, call): the answer; the head, the status, the seats and the frames are changed in place, and nothing on refusal.
pub fn begin_in(
    head: &mut Head,
    plan: &[u64],
    keys: &[u64],
    cells: &[i64],
    status: &mut [u64],
    seats: &mut [u64],
    frames: &mut [i64],
    worker: usize,
    call: usize,
) -> Result<(), Answer>
    ensures made { moved result
        (lent head.new plan.now keys.now cells.now status.new seats.new
        frames.new)
        ≡ begin_of
        (lent head.old plan.now keys.now cells.now status.old seats.old
        frames.old)
        worker call }
    ensures kept { OnErr result (head.new ≡ head.old) }
{
    *head = begin(
        *head, plan, keys, cells, status, seats, frames, worker, call,
    )?;
    Ok(())
}

// STEP(worker): the answer; the head, the cells, the status, the seats and the frames are changed in place, and nothing on refusal.
pub fn step_in(
    head: &mut Head,
    block: &[u8],
    plan: &[u64],
    keys: &[u64],
    cells: &mut [i64],
    status: &mut [u64],
    seats: &mut [u64],
    frames: &mut [i64],
    worker: usize,
) -> Result<(), Answer>
    ensures made { moved result
        (lent head.new plan.now keys.now cells.new status.new seats.new
        frames.new)
        ≡ step_of block.now
        (lent head.old plan.now keys.now cells.old status.old seats.old
        frames.old)
        worker }
    ensures kept { OnErr result (head.new ≡ head.old) }
{
    *head = step(
        *head, block, plan, keys, cells, status, seats, frames, worker,
    )?;
    Ok(())
}

// CANCEL(worker): the answer; the head, the cells and the status are changed in place, and nothing on refusal.
pub fn cancel_in(
    head: &mut Head,
    plan: &[u64],
    keys: &[u64],
    cells: &mut [i64],
    status: &mut [u64],
    seats: &[u64],
    frames: &[i64],
    worker: usize,
) -> Result<(), Answer>
    ensures made { moved result
        (lent head.new plan.now keys.now cells.new status.new seats.now
        frames.now)
        ≡ cancel_of
        (lent head.old plan.now keys.now cells.old status.old seats.now
        frames.now)
        worker }
    ensures kept { OnErr result (head.new ≡ head.old) }
{
    *head = cancel(*head, plan, keys, cells, status, seats, frames, worker)?;
    Ok(())
}
