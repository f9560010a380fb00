// CANCEL by value: the cells of the worker's call restored, the call waiting again, the worker free.
ghost use Rattle.std.specs.Prelude.{◌≡◌, List, ℕ, ◌≤◌, length};
ghost use Rattle.machine.specs.Run.{fixed_sizes};
ghost use Rattle.machine.specs.Moves.{cancel_held, cancel_of};
ghost use Rattle.machine.specs.declared.Head.{Head};
ghost use Rattle.moves.specs.Lent.{head_left, lent, moved_by};

use crate::Hold;
use crate::held::{give_back, held_call};
use machine::layout::{STATUS_WORDS, WAITING, large_enough};
use machine::{Answer, Head};

// The call that the worker holds, given back.
#[tactic(auto, unfolding(machine::specs::Moves::cancel_held))]
fn cancel_held(
    hold: Hold,
    plan: &[u64],
    cells: &mut [i64],
    status: &mut [u64],
    frames: &[i64],
) -> Result<u16, Answer>
    requires plan_in_bounds { fixed_sizes.plan ≤ length plan.now }
    requires frames_in_bounds { fixed_sizes.frames ≤ length frames.now }
    ensures { (head : Head) (keys seats : List ℕ)
        → moved_by head (head_left head hold.worker result)
        (λ h. lent h plan.now keys cells.new status.new seats frames.now)
        ≡ cancel_held (lent head plan.now keys cells.old status.old seats frames.now) hold.worker
        hold.call }
{
    give_back(hold, plan, frames, cells)?;
    wire::put(status, STATUS_WORDS * hold.call, WAITING);
    Ok(0)
}

// CANCEL(worker): the call's cells restored, the call waiting again, its count 0.
#[tactic(auto, using(crate::proofs::HeldLaws::sizes_known), unfolding(machine::specs::Moves::held_by, machine::specs::Moves::cancel_for))]
pub fn cancel(
    head: Head,
    plan: &[u64],
    keys: &[u64],
    cells: &mut [i64],
    status: &mut [u64],
    seats: &[u64],
    frames: &[i64],
    worker: usize,
) -> Result<Head, Answer>
    ensures { moved_by head result
        (λ h. lent h plan.now keys.now cells.new status.new seats.now frames.now)
        ≡ cancel_of
        (lent head plan.now keys.now cells.old status.old seats.now
        frames.now) worker }
{
    let large = large_enough(
        plan.len(),
        keys.len(),
        cells.len(),
        status.len(),
        seats.len(),
        frames.len(),
    );
    let hold = held_call(&head, large, worker)?;
    let held = cancel_held(hold, plan, cells, status, frames)?;
    Ok(hold.head_left(head, held))
}
