// An opening that tests the length of the head too, and the serial run as a move.
ghost use Rattle.std.specs.Prelude.{◌≡◌, length};
ghost use Rattle.moves.specs.Lent.{lent, moved_by};
ghost use Rattle.opening.specs.Opened.{sizes_for, OpenedAs};
ghost use Rattle.exports.specs.Exports.{opening_for, serial_move};

use block::Refusal;
use export_words::words::HEAD_WORDS;
use machine::layout::large_enough;
use machine::{Answer, Head};
use moves::Buffers;
use opening::{clear_prepared, clear_states, open};
use serial::serial_run;

// The opening of a block, 20 if the head has too few words: the head of its run, or the refusal, and then the buffers are zero.
pub fn open_for(
    head_words: usize,
    file: &[u8],
    workers: usize,
    plan: &mut [u64],
    keys: &mut [u64],
    cells: &mut [i64],
    status: &mut [u64],
    seats: &mut [u64],
    frames: &mut [i64],
) -> Result<Head, Refusal>
    ensures { OpenedAs result plan.new keys.new cells.new status.new seats.new
        frames.new
        (opening_for head_words
        (sizes_for (length plan.old) (length keys.old) (length cells.old) (length status.old)
        (length seats.old) (length frames.old)) file.now workers) }
{
    if head_words < HEAD_WORDS {
        clear_prepared(plan, keys, cells);
        clear_states(status, seats, frames);
        return Err(Refusal::Buffers);
    }
    open(file, workers, plan, keys, cells, status, seats, frames)
}

// The serial run, or 20 for a buffer that is too short.
#[tactic(auto, unfolding(exports::specs::Exports::serial_move))]
pub fn serial_move(
    head: Head,
    block: &[u8],
    plan: &[u64],
    keys: &[u64],
    cells: &mut [i64],
    status: &mut [u64],
    seats: &mut [u64],
    frames: &mut [i64],
) -> Result<Head, Answer>
    ensures { moved_by head result
        (λ h. lent h plan.now keys.now cells.new status.new seats.new frames.new)
        ≡ serial_move block.now
        (lent head plan.now keys.now cells.old status.old seats.old
        frames.old) }
{
    let large = large_enough(
        plan.len(),
        keys.len(),
        cells.len(),
        status.len(),
        seats.len(),
        frames.len(),
    );
    if !large {
        return Err(Answer::Damaged);
    }
    let mut run = Buffers {
        plan,
        keys,
        cells,
        status,
        seats,
        frames,
    };
    Ok(serial_run(head, block, &mut run))
}
