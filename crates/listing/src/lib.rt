// The listing of a block as text: its refusal; or its numbers, and for each call those that it waits for.
#![tactic(auto)]

ghost use Rattle.std.specs.Prelude.{◌≡◌, ◌+◌, ◌<◌, ◌≤◌, length};
ghost use Rattle.block.specs.Limits.{max_calls};
ghost use Rattle.machine.specs.Run.{fixed_sizes};
ghost use Rattle.opening.specs.Opened.{sizes_for};
ghost use Rattle.listing.specs.Listing.{rows_text, Listed};
ghost use Rattle.text.specs.Written.{Written};

use block::limits::{MAX_CALLS, MAX_WORKERS};
use decoder::numbers::{number_of, offset_of};
use text::{block_refused_line, counts_line, row_line};

// The longest line of a row: its letter, a call and its earlier calls of three digits behind a space each, and a line feed.
const MAX_ROW_TEXT: usize = 4 * MAX_CALLS + 6;

// The longest listing: its first line has four numbers of at most 20 digits.
pub const MAX_LISTING: usize = MAX_CALLS * MAX_ROW_TEXT + 86;

// The rows of the first `calls` calls, from a position on.
fn rows(plan: &[u64], calls: usize, out: &mut [u8], from: usize) -> usize
    requires calls_le_max_calls { calls ≤ max_calls }
    requires plan_in_bounds { fixed_sizes.plan ≤ length plan.now }
    requires from_bound { from < 1000 }
    ensures { Written out.old out.new from result (rows_text calls 0 plan.now) }
{
    let mut at = from;
    for call in 0..calls {
        let row = opening::row_of(plan, call as u8);
        at = row_line(out, at as u32, call as u64, row);
    }
    at
}

// A block opened for 8 workers in the lent buffers, and its listing at the start of `out`; answers the listing's length.
pub fn list(
    file: &[u8],
    plan: &mut [u64],
    keys: &mut [u64],
    cells: &mut [i64],
    status: &mut [u64],
    seats: &mut [u64],
    frames: &mut [i64],
    out: &mut [u8],
) -> usize
    ensures { Listed file.now
        (sizes_for (length plan.old) (length keys.old) (length cells.old) (length status.old)
        (length seats.old) (length frames.old)) plan.new keys.new cells.new status.new
        seats.new frames.new out.old out.new result }
{
    match opening::open(file, MAX_WORKERS, plan, keys, cells, status, seats, frames) {
        Err(why) => block_refused_line(out, 0, number_of(why), offset_of(why)),
        Ok(head) => {
            let l = reader::read_block(file).unwrap();
            let at = counts_line(
                out,
                0,
                l.functions as u64,
                l.cells as u64,
                head.calls as u64,
                head.cells as u64,
            );
            rows(plan, head.calls.min(MAX_CALLS), out, at)
        }
    }
}
