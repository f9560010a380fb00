// STEP: one step of the call that a worker holds.
ghost use Rattle.std.specs.Prelude.{◌≡◌, ◌||◌, not, List, ℕ, ◌+◌, ◌-◌, ◌*◌, ◌≤◌, ◌<◌, ltb, length, drop};
ghost use Rattle.block.specs.Limits.{max_calls, max_code};
ghost use Rattle.block.specs.Record.{call_record_bytes, head_bytes, call_of};
ghost use Rattle.footprint.specs.Plan.{code_length, plan_words};
ghost use Rattle.machine.specs.Run.{fixed_sizes, plan_word, with_receipt};
ghost use Rattle.machine.specs.Step.{finish, step_place};
ghost use Rattle.machine.specs.Moves.{step_held, step_of, stepped};
ghost use Rattle.machine.specs.declared.Head.{Head};
ghost use Rattle.moves.specs.HeldCall.{HoldOf};
ghost use Rattle.moves.specs.Lent.{head_left, lent, moved_by};
ghost use Rattle.moves.specs.Turn.{cell_view, turn_settled, turned, view_in, worker_saved, EntriesReady, SiteInRange};

use crate::held::{give_back, held_call};
use crate::lookup::plan_word;
use crate::perform::perform;
use crate::place::due;
use crate::seat::{count_of, place_of, put_regs, put_seat, regs_of};
use crate::waits::{can_lower, lower};
use crate::{Hold, Site, Turn};
use block::Call;
use block::format::{CALL_RECORD_BYTES, HEAD_BYTES};
use block::limits::MAX_CODE;
use block::outcomes::THROWN;
use decoder::record::call_at;
use footprint::layout::CODE_LENGTH;
use machine::layout::{FINISHED, REGISTERS, STATUS_WORDS, large_enough};
use machine::{Answer, Head};

const LAST_PLACE: usize = MAX_CODE + 1;

// What the place of a call comes to: what is due there is done.
fn step_place(
    block: &[u8],
    plan: &[u64],
    keys: &[u64],
    cells: &mut [i64],
    site: Site,
    regs: [i64; REGISTERS],
    body: Call,
) -> Option<Turn>
    requires entries_ready { EntriesReady plan.now keys.now site.call }
    requires site_in_range { SiteInRange plan.now site }
    ensures { record { turn = result; cells = cells.new }
        ≡ turned cells.old
        (step_place (view_in block.now plan.now keys.now site.call body) site.place site.count regs
        cells.old) }
{
    let due = due(block, plan, site, regs, body)?;
    perform(plan, keys, cells, site, due)
}

// The place: entry, or 0 to the code's length.
fn in_range(plan: &[u64], site: Site) -> bool
    requires plan_words_in_bounds { max_calls * plan_words ≤ length plan.now }
    requires call_lt_max_calls { site.call < max_calls }
    ensures { result
        ≡ (not (ltb (max_code + 1) (plan_word plan.now site.call code_length)
        || ltb (plan_word plan.now site.call code_length) site.place)) }
{
    let code = plan_word(plan, site.call, CODE_LENGTH) as usize;
    if LAST_PLACE < code {
        return false;
    }
    site.place <= code
}

// The record of a call in a block whose first call record starts at `start`; one that the block does not hold whole is none.
fn record_of(block: &[u8], start: usize, call: usize) -> Option<Call>
    requires { call < max_calls }
    ensures { result ≡ call_of (drop (start + call_record_bytes * call + head_bytes) block.now) }
{
    let at = CALL_RECORD_BYTES * call + HEAD_BYTES;
    let rest = block.len().checked_sub(at)?;
    if rest < start {
        return None;
    }
    call_at(block, start + at)
}

// The call that a worker holds, in a run whose first call record starts at `start`: what its place comes to.
#[tactic(auto, unfolding(machine::specs::Moves::step_held, machine::specs::Moves::step_record, machine::specs::Moves::stepped, machine::specs::Step::concluded))]
fn step_held(
    hold: Hold,
    start: usize,
    block: &[u8],
    plan: &[u64],
    keys: &[u64],
    cells: &mut [i64],
    seats: &[u64],
    frames: &[i64],
) -> Option<Turn>
    requires entries_ready { EntriesReady plan.now keys.now hold.call }
    requires seats_in_bounds { fixed_sizes.seats ≤ length seats.now }
    requires frames_in_bounds { fixed_sizes.frames ≤ length frames.now }
    ensures { (head : Head) (status : List ℕ) → start ≡ head.first_call
        → turn_settled head plan.now keys.now cells.new status seats.now frames.now hold.worker
        hold.call result
        ≡ step_held block.now
        (lent head plan.now keys.now cells.old status seats.now frames.now) hold.worker
        hold.call }
{
    let Hold { worker, call, .. } = hold;
    let site = Site {
        call,
        place: place_of(seats, worker) as usize,
        count: count_of(seats, worker),
    };
    if !in_range(plan, site) {
        return None;
    }
    let body = record_of(block, start, call)?;
    let regs = regs_of(frames, worker);
    step_place(block, plan, keys, cells, site, regs, body)
}

// The receipt of a finished call: its outcome and its count.
fn put_receipt(status: &mut [u64], call: usize, outcome: u64, count: u64)
    requires { call < max_calls }
    ensures { status.new ≡ with_receipt status.old call outcome count }
{
    let at = STATUS_WORDS * call;
    wire::put(status, at, FINISHED);
    wire::put(status, at + 1, outcome);
    wire::put(status, at + 2, count);
}

// The end of a call. "On 3, 4, 5 the same step restores every cell of the write set", on 6 "as 4 does", and on 7 "all is restored"; behind all tests the
// receipt is written, and the numbers of the calls that wait for it are lowered. "A finished or cancelled call frees its worker."
#[tactic(auto, unfolding(machine::specs::Moves::stepped, machine::specs::Step::finish))]
fn finish(
    hold: Hold,
    plan: &[u64],
    cells: &mut [i64],
    status: &mut [u64],
    frames: &[i64],
    outcome: u64,
    count: u64,
) -> Result<u16, Answer>
    requires plan_in_bounds { fixed_sizes.plan ≤ length plan.now }
    requires frames_in_bounds { fixed_sizes.frames ≤ length frames.now }
    ensures { (head : Head) (keys seats : List ℕ) → hold.calls ≡ head.calls
        → moved_by head (head_left head hold.worker result)
        (λ h. lent h plan.now keys cells.new status.new seats frames.now)
        ≡ stepped (lent head plan.now keys cells.old status.old seats frames.now) hold.worker hold.call
        (finish (cell_view plan.now keys hold.call) (worker_saved plan.now frames.now hold.worker hold.call) outcome count
        cells.old) }
{
    let Hold { call, calls, .. } = hold;
    if !can_lower(plan, status, call, calls) {
        return Err(Answer::Damaged);
    }
    if THROWN <= outcome {
        give_back(hold, plan, frames, cells)?;
    }
    put_receipt(status, call, outcome, count);
    lower(plan, status, call, calls);
    Ok(0)
}

// What a turn leaves of a run, beside the cells that its place changed.
#[tactic(auto, unfolding(machine::specs::Moves::stepped, machine::specs::Step::concluded))]
fn settle(
    hold: Hold,
    plan: &[u64],
    cells: &mut [i64],
    status: &mut [u64],
    seats: &mut [u64],
    frames: &mut [i64],
    turn: Option<Turn>,
) -> Result<u16, Answer>
    requires plan_in_bounds { fixed_sizes.plan ≤ length plan.now }
    requires seats_in_bounds { fixed_sizes.seats ≤ length seats.old }
    requires frames_in_bounds { fixed_sizes.frames ≤ length frames.old }
    ensures { (head : Head) (keys : List ℕ) → HoldOf head hold
        → moved_by head (head_left head hold.worker result)
        (λ h. lent h plan.now keys cells.new status.new seats.new frames.new)
        ≡ turn_settled head plan.now keys cells.old status.old seats.old frames.old
        hold.worker hold.call turn }
{
    match turn {
        None => Err(Answer::Damaged),
        Some(Turn::Going { place, count, regs }) => {
            put_seat(seats, hold.worker, place as u64, count);
            put_regs(frames, hold.worker, regs);
            Ok(hold.held())
        }
        Some(Turn::Over { outcome, count }) => finish(
            hold, plan, cells, status, frames, outcome, count,
        ),
    }
}

// STEP(worker) on a lent run and block: the head that it leaves, or why it is refused; the cells, the status, the seats and the frames change in place.
#[tactic(auto, using(crate::proofs::HeldLaws::sizes_known), unfolding(machine::specs::Moves::held_by, machine::specs::Moves::step_for))]
pub fn step(
    head: Head,
    block: &[u8],
    plan: &[u64],
    keys: &[u64],
    cells: &mut [i64],
    status: &mut [u64],
    seats: &mut [u64],
    frames: &mut [i64],
    worker: usize,
) -> Result<Head, Answer>
    ensures { moved_by head result
        (λ h. lent h plan.now keys.now cells.new status.new seats.new frames.new)
        ≡ step_of block.now
        (lent head plan.now keys.now cells.old status.old seats.old
        frames.old) worker }
{
    let large = large_enough(
        plan.len(),
        keys.len(),
        cells.len(),
        status.len(),
        seats.len(),
        frames.len(),
    );
    let hold = held_call(&head, large, worker)?;
    let turn = step_held(
        hold,
        head.first_call,
        block,
        plan,
        keys,
        cells,
        seats,
        frames,
    );
    let held = settle(hold, plan, cells, status, seats, frames, turn)?;
    Ok(hold.head_left(head, held))
}
