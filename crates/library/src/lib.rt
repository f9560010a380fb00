// The register for programs in other languages: each function takes numbers and slices, keeps nothing, and refuses what it cannot take. A run
// is its head, a slice of words, and six buffers, all lent by the caller.
#![tactic(auto)]

mod run;

ghost use Rattle.std.specs.Prelude.{◌≡◌, length};
ghost use Rattle.machine.specs.Moves.{begin_of, cancel_of, step_of};
ghost use Rattle.opening.specs.Opened.{sizes_for};
ghost use Rattle.exports.specs.Words.{words};
ghost use Rattle.exports.specs.Exports.{size_of, open_words, move_words, serial_move, sheet_words};

use closing::sheet;
use decoder::numbers::{number_of, offset_of};
use export_words::answers::size_of;
use export_words::words::{HEAD_WORDS, head_in, store_held, store_opened};
use in_place::lender::{begin_lending, cancel_lending, step_lending};
use machine::Answer;
use machine::numbers::refused_number;
use run::{open_for, serial_move};

// The fixed size, by number, of the head (0), the plan, the keys, the cells, the status, the seats and the frames (6), of the longest sheet (7)
// and of the longest block (8); 0 for any other number.
pub fn zumbiqa_size(which: usize) -> u64
    ensures { result ≡ size_of which }
{
    size_of(which)
}

// The run of a block for 1 to 8 workers: 0, or the number of its refusal, whose place is the offset.
pub fn zumbiqa_open(
    block: &[u8],
    workers: usize,
    head: &mut [u64],
    plan: &mut [u64],
    keys: &mut [u64],
    cells: &mut [i64],
    status: &mut [u64],
    seats: &mut [u64],
    frames: &mut [i64],
    offset: &mut u64,
) -> u64
    ensures { record {
      number = result;
      offset = offset.new;
      words = words head.new plan.new keys.new cells.new status.new seats.new frames.new;
    }
        ≡ open_words (length head.old)
        (sizes_for (length plan.old) (length keys.old) (length cells.old) (length status.old)
        (length seats.old) (length frames.old)) block.now workers }
{
    match open_for(
        head.len(),
        block,
        workers,
        plan,
        keys,
        cells,
        status,
        seats,
        frames,
    ) {
        Ok(start) => {
            store_opened(head, start);
            *offset = 0;
            0
        }
        Err(why) => {
            wire::clear(head, 0);
            *offset = offset_of(why);
            number_of(why)
        }
    }
}

// BEGIN(worker, call): 0, or the number of its refusal.
pub fn zumbiqa_begin(
    head: &mut [u64],
    plan: &[u64],
    keys: &[u64],
    cells: &[i64],
    status: &mut [u64],
    seats: &mut [u64],
    frames: &mut [i64],
    worker: usize,
    call: usize,
) -> u64
    ensures { record {
      number = result;
      words = words head.new plan.now keys.now cells.now status.new seats.new frames.new;
    }
        ≡ move_words (λ run. begin_of run worker call)
        (words head.old plan.now keys.now cells.now status.old seats.old
        frames.old) worker }
{
    if head.len() < HEAD_WORDS {
        return refused_number(Answer::Damaged);
    }
    match begin_lending(
        head_in(head),
        plan,
        keys,
        cells,
        status,
        seats,
        frames,
        worker,
        call,
    ) {
        Ok(after) => {
            store_held(head, after, worker);
            0
        }
        Err(why) => refused_number(why),
    }
}

// STEP(worker): 0, or the number of its refusal.
pub fn zumbiqa_step(
    block: &[u8],
    head: &mut [u64],
    plan: &[u64],
    keys: &[u64],
    cells: &mut [i64],
    status: &mut [u64],
    seats: &mut [u64],
    frames: &mut [i64],
    worker: usize,
) -> u64
    ensures { record {
      number = result;
      words = words head.new plan.now keys.now cells.new status.new seats.new frames.new;
    }
        ≡ move_words (λ run. step_of block.now run worker)
        (words head.old plan.now keys.now cells.old status.old seats.old
        frames.old) worker }
{
    if head.len() < HEAD_WORDS {
        return refused_number(Answer::Damaged);
    }
    match step_lending(
        head_in(head),
        block,
        plan,
        keys,
        cells,
        status,
        seats,
        frames,
        worker,
    ) {
        Ok(after) => {
            store_held(head, after, worker);
            0
        }
        Err(why) => refused_number(why),
    }
}

// CANCEL(worker): 0, or the number of its refusal.
pub fn zumbiqa_cancel(
    head: &mut [u64],
    plan: &[u64],
    keys: &[u64],
    cells: &mut [i64],
    status: &mut [u64],
    seats: &[u64],
    frames: &[i64],
    worker: usize,
) -> u64
    ensures { record {
      number = result;
      words = words head.new plan.now keys.now cells.new status.new seats.now frames.now;
    }
        ≡ move_words (λ run. cancel_of run worker)
        (words head.old plan.now keys.now cells.old status.old seats.now
        frames.now) worker }
{
    if head.len() < HEAD_WORDS {
        return refused_number(Answer::Damaged);
    }
    match cancel_lending(
        head_in(head),
        plan,
        keys,
        cells,
        status,
        seats,
        frames,
        worker,
    ) {
        Ok(after) => {
            store_held(head, after, worker);
            0
        }
        Err(why) => refused_number(why),
    }
}

// The serial run, calls 0, 1, .. each begun on worker 0 and stepped to its end: 0, or 20 for a slice that is too short.
pub fn zumbiqa_serial_run(
    block: &[u8],
    head: &mut [u64],
    plan: &[u64],
    keys: &[u64],
    cells: &mut [i64],
    status: &mut [u64],
    seats: &mut [u64],
    frames: &mut [i64],
) -> u64
    ensures { record {
      number = result;
      words = words head.new plan.now keys.now cells.new status.new seats.new frames.new;
    }
        ≡ move_words (serial_move block.now)
        (words head.old plan.now keys.now cells.old status.old seats.old
        frames.old) 0 }
{
    if head.len() < HEAD_WORDS {
        return refused_number(Answer::Damaged);
    }
    match serial_move(
        head_in(head),
        block,
        plan,
        keys,
        cells,
        status,
        seats,
        frames,
    ) {
        Ok(after) => {
            store_held(head, after, 0);
            0
        }
        Err(why) => refused_number(why),
    }
}

// The closing sheet: 0, or the number of its refusal. The length becomes that of the written sheet, the offset behind its last record; a refusal
// leaves it as it was.
pub fn zumbiqa_sheet(
    head: &[u64],
    plan: &[u64],
    keys: &[u64],
    cells: &[i64],
    status: &[u64],
    seats: &[u64],
    frames: &[i64],
    output: &mut [u8],
    sheet_length: &mut u64,
) -> u64
    ensures { record { number = result; sheet_length = sheet_length.new; output = output.new }
        ≡ sheet_words
        (words head.now plan.now keys.now cells.now status.now seats.now
        frames.now) output.old sheet_length.old }
{
    if head.len() < HEAD_WORDS {
        return refused_number(Answer::Damaged);
    }
    match sheet(
        head_in(head),
        plan,
        keys,
        cells,
        status,
        seats,
        frames,
        output,
    ) {
        Ok(length) => {
            *sheet_length = length as u64;
            0
        }
        Err(why) => refused_number(why),
    }
}
