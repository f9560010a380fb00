// BEGIN by value: the tests of the worker, of the call and of the number that it carries, and the change.
ghost use Rattle.std.specs.Prelude.{◌≡◌, List, ℕ, ◌≤◌, ◌<◌, ℤ, length, IsTrue, Ok, OnOk};
ghost use Rattle.block.specs.Limits.{max_calls, max_workers};
ghost use Rattle.machine.specs.Run.{fixed_sizes, state_of};
ghost use Rattle.machine.specs.Moves.{begin_call, begin_of, call_key_count, stay};
ghost use Rattle.machine.specs.declared.Head.{Head};
ghost use Rattle.moves.specs.Lent.{head_left, lent, moved, moved_by};
ghost use Rattle.moves.specs.Tests.{unless_refused, head_tested, begin_tested, begin_by_count, FewKeys};

use crate::Hold;
use crate::entries::{key_count, restorable, save};
use crate::held::worker_tested;
use crate::seat::{put_regs, put_seat};
use crate::waits::wait_of;
use block::limits::MAX_CALLS;
use machine::layout::{FINISHED, REGISTERS, RUNNING, STATUS_WORDS, WAITING, large_enough};
use machine::{Answer, Head};

// The state of a call.
fn state_of(status: &[u64], call: usize) -> u64
    requires { call < max_calls }
    ensures { result ≡ state_of status.now call }
{
    wire::get_or(status, STATUS_WORDS * call, 0)
}

// 22 and 23, and 20 for the numbers that these use: the number of calls, and the call that the worker holds.
fn head_tested(calls: usize, busy: usize, call: usize) -> Result<(), Answer>
    ensures tested { result ≡ head_tested calls busy call }
    ensures known { OnOk result ((call < calls) × (calls ≤ max_calls)) }
{
    if MAX_CALLS < calls {
        return Err(Answer::Damaged);
    }
    if calls <= call {
        return Err(Answer::NoCall);
    }
    if calls < busy {
        return Err(Answer::Damaged);
    }
    if busy != 0 {
        return Err(Answer::WorkerBusy);
    }
    Ok(())
}

// What BEGIN tests of the head.
fn begin_tested(head: &Head, large: bool, worker: usize, call: usize) -> Result<(), Answer>
    ensures tested { result ≡ begin_tested large head.now worker call }
    ensures sized { OnOk result (IsTrue large) }
    ensures seated { OnOk result (worker < max_workers) }
    ensures known { OnOk result ((call < head.now.calls) × (head.now.calls ≤ max_calls)) }
{
    worker_tested(head.workers, large, worker)?;
    head_tested(head.calls, head.held[worker] as usize, call)
}

// 24, 25, and 20 for what these and the change look at: the call's state, the number that it carries, the number of keys and the entries.
#[tactic(auto, unfolding(machine::specs::Moves::begin_checked))]
fn call_tested(plan: &[u64], status: &[u64], call: usize) -> Result<(), Answer>
    requires call_lt_max_calls { call < max_calls }
    requires plan_in_bounds { fixed_sizes.plan ≤ length plan.now }
    ensures call_value { (head : Head) (keys : List ℕ) (cells : List ℤ) (seats : List ℕ) (frames : List ℤ) (worker : ℕ)
        → unless_refused result (stay (lent head plan.now keys cells status.now seats frames))
        (moved (Ok tt) (begin_call (lent head plan.now keys cells status.now seats frames) worker call))
        ≡ begin_by_count (lent head plan.now keys cells status.now seats frames) worker call }
    ensures few_keys { FewKeys result (call_key_count plan.now call) }
{
    let state = state_of(status, call);
    if FINISHED < state {
        return Err(Answer::Damaged);
    }
    if state != WAITING {
        return Err(Answer::NotWaiting);
    }
    let waits = wait_of(status, call);
    if (call as u64) < waits {
        return Err(Answer::Damaged);
    }
    if waits != 0 {
        return Err(Answer::EarlierUnfinished);
    }
    let n = key_count(plan, call);
    if restorable(plan, call, n) {
        Ok(())
    } else {
        Err(Answer::Damaged)
    }
}

// The call that the tests of the head let through: its own tests, and the change.
#[tactic(auto, unfolding(machine::specs::Moves::begin_call))]
fn begin_call(
    hold: Hold,
    plan: &[u64],
    cells: &[i64],
    status: &mut [u64],
    seats: &mut [u64],
    frames: &mut [i64],
) -> Result<u16, Answer>
    requires plan_in_bounds { fixed_sizes.plan ≤ length plan.now }
    requires seats_in_bounds { fixed_sizes.seats ≤ length seats.old }
    requires frames_in_bounds { fixed_sizes.frames ≤ length frames.old }
    ensures { (head : Head) (keys : List ℕ)
        → moved_by head (head_left head hold.worker result)
        (λ h. lent h plan.now keys cells.now status.new seats.new frames.new)
        ≡ begin_by_count
        (lent head plan.now keys cells.now status.old seats.old frames.old) hold.worker
        hold.call }
{
    let Hold { worker, call, .. } = hold;
    call_tested(plan, status, call)?;
    let n = key_count(plan, call);
    put_seat(seats, worker, 0, 0);
    put_regs(frames, worker, [0; REGISTERS]);
    save(plan, call, n, cells, frames, worker);
    wire::put(status, STATUS_WORDS * call, RUNNING);
    Ok(hold.held())
}

// BEGIN(worker, call): running, at entry, the old values of the write set kept.
#[tactic(auto, using(crate::proofs::HeldLaws::sizes_known), unfolding(machine::specs::Moves::begin_by))]
pub fn begin(
    head: Head,
    plan: &[u64],
    keys: &[u64],
    cells: &[i64],
    status: &mut [u64],
    seats: &mut [u64],
    frames: &mut [i64],
    worker: usize,
    call: usize,
) -> Result<Head, Answer>
    ensures { moved_by head result
        (λ h. lent h plan.now keys.now cells.now status.new seats.new frames.new)
        ≡ begin_of
        (lent head plan.now keys.now cells.now status.old seats.old
        frames.old) worker call }
{
    let large = large_enough(
        plan.len(),
        keys.len(),
        cells.len(),
        status.len(),
        seats.len(),
        frames.len(),
    );
    begin_tested(&head, large, worker, call)?;
    let hold = Hold {
        worker,
        call,
        calls: head.calls,
    };
    let held = begin_call(hold, plan, cells, status, seats, frames)?;
    Ok(hold.head_left(head, held))
}
