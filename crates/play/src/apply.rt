// One move on a lent run and block.
ghost use Rattle.std.specs.Prelude.{◌≡◌};
ghost use Rattle.machine.specs.Moves.{move_of};
ghost use Rattle.moves.specs.Lent.{moved_by};
ghost use Rattle.moves.specs.Buffers.{run_of, SameBuffers};

use machine::{Answer, Head};
use moves::Buffers;
use moves::begin::begin;
use moves::cancel::cancel;
use moves::step::step;
use schedule::Move;

// BEGIN, STEP or CANCEL, by the move's name.
#[tactic(auto, unfolding(machine::specs::Moves::move_of))]
pub fn apply_move(head: Head, block: &[u8], run: &mut Buffers<'_>, m: Move) -> Result<Head, Answer>
    ensures same { SameBuffers run.old run.new }
    ensures made { moved_by head result (λ h. run_of h run.new) ≡ move_of block.now (run_of head run.old) m }
{
    match m {
        Move::Begin(worker, call) => begin(
            head,
            run.plan,
            run.keys,
            &mut *run.cells,
            run.status,
            run.seats,
            run.frames,
            worker,
            call,
        ),
        Move::Step(worker) => step(
            head, block, run.plan, run.keys, run.cells, run.status, run.seats, run.frames, worker,
        ),
        Move::Cancel(worker) => cancel(
            head,
            run.plan,
            run.keys,
            run.cells,
            run.status,
            &mut *run.seats,
            &mut *run.frames,
            worker,
        ),
    }
}
