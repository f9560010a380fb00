// The closing sheet of a run, written into a lent output.
#![tactic(auto)]

mod records;
mod tests;
mod write;

ghost use Rattle.sheet.specs.Sheet.{sheet_of};
ghost use Rattle.closing.specs.Answered.{ClosedAs};

use block::limits::{MAX_CALLS, MAX_KEYS};
use machine::layout::large_enough;
use machine::{Answer, Head};
use tests::{all_finished, cells_found, states_allowed};
use write::write_sheet;

// The closing sheet: 20 for the sizes, the number of calls and their states; 27 for a call unfinished; 20 for the number of cells and
// the balances; 28; 20 for the receipts.
// Stays: the buffers of the run are parameters (a); the caller lends each one, of any length.
#[tactic(auto, unfolding(sheet::specs::Sheet::sheet_of, sheet::specs::Sheet::sheet_records), using(crate::proofs::Answering::closed_as))]
pub fn sheet(
    head: Head,
    plan: &[u64],
    keys: &[u64],
    cells: &[i64],
    status: &[u64],
    seats: &[u64],
    frames: &[i64],
    output: &mut [u8],
) -> Result<usize, Answer>
    ensures { ClosedAs result output.new
        (sheet_of (record {
          head = head;
          plan = plan.now;
          keys = keys.now;
          cells = cells.now;
          status = status.now;
          seats = seats.now;
          frames = frames.now;
        }) output.old) }
{
    let calls = head.calls;
    let count = head.cells;
    let large = large_enough(
        plan.len(),
        keys.len(),
        cells.len(),
        status.len(),
        seats.len(),
        frames.len(),
    );
    if !large {
        return Err(Answer::Damaged);
    }
    if MAX_CALLS < calls {
        return Err(Answer::Damaged);
    }
    if !states_allowed(status, calls) {
        return Err(Answer::Damaged);
    }
    if !all_finished(status, calls) {
        return Err(Answer::CallUnfinished);
    }
    if MAX_KEYS < count {
        return Err(Answer::Damaged);
    }
    let records = cells_found(keys, cells, count).ok_or(Answer::Damaged)?;
    write_sheet(keys, cells, status, count, calls, records, output)
}
