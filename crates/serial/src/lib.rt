// The serial run on a run that the caller lends: calls 0, 1, .. each begun on worker 0 and stepped to its end.
#![tactic(auto)]

ghost use Rattle.std.specs.Prelude.{◌≡◌};
ghost use Rattle.machine.specs.Serial.{max_steps, step_to_end, run_call, serial_run};
ghost use Rattle.moves.specs.Buffers.{run_of, SameBuffers};

use block::limits::{MAX_CALLS, MAX_FUEL};
use machine::Head;
use moves::Buffers;
use moves::begin::begin;
use moves::step::step;

// M-104: "a call takes at most fuel plus 2 accepted steps"; no fuel is above the limit.
const MAX_STEPS: usize = MAX_FUEL + 2;

// The worker of the serial run.
const WORKER: usize = 0;

// Steps until the worker is free. A refused step changes nothing, so none behind it would: in a damaged run the first one ends them.
fn step_to_end(mut head: Head, block: &[u8], run: &mut Buffers<'_>) -> Head
    ensures same { SameBuffers run.old run.new }
    ensures run { run_of result run.new ≡ step_to_end max_steps block.now (run_of head run.old) }
{
    for _ in 0..MAX_STEPS {
        if head.held[WORKER] == 0 {
            return head;
        }
        let Ok(after) = step(
            head, block, run.plan, run.keys, run.cells, run.status, run.seats, run.frames, WORKER,
        ) else {
            return head;
        };
        head = after;
    }
    head
}

// One call, begun and stepped to its end.
fn run_call(head: Head, block: &[u8], run: &mut Buffers<'_>, call: usize) -> Head
    ensures same { SameBuffers run.old run.new }
    ensures run { run_of result run.new ≡ run_call block.now (run_of head run.old) call }
{
    let begun = begin(
        head,
        run.plan,
        run.keys,
        &mut *run.cells,
        run.status,
        run.seats,
        run.frames,
        WORKER,
        call,
    )
    .unwrap_or(head);
    step_to_end(begun, block, run)
}

// "Serial run: calls 0, 1, .. each begun and stepped to its end.", as many as a block can have where a damaged head has more.
pub fn serial_run(mut head: Head, block: &[u8], run: &mut Buffers<'_>) -> Head
    ensures same { SameBuffers run.old run.new }
    ensures run { run_of result run.new ≡ serial_run block.now (run_of head run.old) }
{
    for call in 0..head.calls.min(MAX_CALLS) {
        head = run_call(head, block, run, call);
    }
    head
}
