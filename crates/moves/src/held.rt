// What the moves test first, and the head that they end with.
ghost use Rattle.std.specs.Prelude.{◌≡◌, ◌+◌, ◌≤◌, ◌<◌, length, IsTrue, IfOk, OnOk, OnErr};
ghost use Rattle.block.specs.Limits.{max_workers};
ghost use Rattle.machine.specs.Run.{fixed_sizes, with_held};
ghost use Rattle.machine.specs.Step.{restored};
ghost use Rattle.machine.specs.Moves.{own_entries};
ghost use Rattle.moves.specs.HeldCall.{as_held, held_tested, HoldOf};
ghost use Rattle.moves.specs.Tests.{worker_tested, entries_tested};
ghost use Rattle.moves.specs.Turn.{worker_saved};

use crate::Hold;
use crate::entries::{key_count, restorable, restore};
use block::limits::{MAX_CALLS, MAX_WORKERS};
use machine::{Answer, Head};

impl Hold {
    // The call, as the head has it for its worker.
    pub(crate) fn held(self) -> u16
        ensures { result ≡ self.call + 1 }
    {
        self.call as u16 + 1
    }

    // The head, with what its worker then holds.
    pub(crate) fn head_left(self, head: Head, held: u16) -> Head
        ensures { result ≡ with_held head self.worker held }
    {
        let mut left = head;
        left.held[self.worker] = held;
        left
    }
}

// 20 for the run's sizes and the number of workers, and 21.
pub(crate) fn worker_tested(workers: usize, large: bool, worker: usize) -> Result<(), Answer>
    ensures tested { result ≡ worker_tested large workers worker }
    ensures sized { OnOk result (IsTrue large) }
    ensures seated { OnOk result (worker < max_workers) }
{
    if !large || workers == 0 || MAX_WORKERS < workers {
        return Err(Answer::Damaged);
    }
    if workers <= worker {
        return Err(Answer::NoWorker);
    }
    Ok(())
}

// What STEP and CANCEL test of the head: behind the worker 26, and 20 for a held call that is none of the run; else the held call.
pub(crate) fn held_call(head: &Head, large: bool, worker: usize) -> Result<Hold, Answer>
    ensures held { as_held result ≡ held_tested large head.now worker }
    ensures sized { OnOk result (IsTrue large) }
    ensures own { IfOk result (λ h. h.worker ≡ worker) }
    ensures hold_of { IfOk result (λ h. HoldOf head.now h) }
{
    worker_tested(head.workers, large, worker)?;
    let held = head.held[worker] as usize;
    if held == 0 {
        return Err(Answer::WorkerIdle);
    }
    if MAX_CALLS < head.calls || head.calls < held {
        return Err(Answer::Damaged);
    }
    Ok(Hold {
        worker,
        call: held - 1,
        calls: head.calls,
    })
}

// The cells of the call get back the values that its worker keeps; 20 where its entries cannot be used for that.
pub(crate) fn give_back(
    hold: Hold,
    plan: &[u64],
    frames: &[i64],
    cells: &mut [i64],
) -> Result<(), Answer>
    requires plan_in_bounds { fixed_sizes.plan ≤ length plan.now }
    requires frames_in_bounds { fixed_sizes.frames ≤ length frames.now }
    ensures tested { result ≡ entries_tested plan.now hold.call }
    ensures given { OnOk result
        (cells.new
        ≡ restored (own_entries plan.now hold.call) (worker_saved plan.now frames.now hold.worker hold.call) cells.old) }
    ensures kept { OnErr result (cells.new ≡ cells.old) }
{
    let Hold { worker, call, .. } = hold;
    let n = key_count(plan, call);
    if !restorable(plan, call, n) {
        return Err(Answer::Damaged);
    }
    restore(plan, call, n, frames, worker, cells);
    Ok(())
}
