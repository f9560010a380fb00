// The tests of a closing sheet.
ghost use Rattle.std.specs.Prelude.{◌≡◌, ◌&&◌, ◌||◌, not, ◌/◌, ◌%◌, ◌^◌, ◌<◌, ◌≤◌, eqb, leb};
ghost use Rattle.std.specs.Int.Signed.{non_neg};
ghost use Rattle.block.specs.Limits.{max_calls, max_keys};
ghost use Rattle.machine.specs.Run.{status_word, status_words};
ghost use Rattle.block.specs.Outcomes.{last_outcome, max_count};
ghost use Rattle.sheet.specs.Sheet.{states_allowed, all_finished, receipts_allowed};
ghost use Rattle.closing.specs.Found.{found_in};

use block::format::{FIELD_BASE, FIELDS};
use block::outcomes::{LAST_OUTCOME, MAX_COUNT};
use footprint::layout::KEY_WORDS;
use machine::layout::{COUNT_WORD, FINISHED, OUTCOME_WORD, STATE_WORD, STATUS_WORDS};

// A word of a call's status.
pub(crate) fn status_word(status: &[u64], call: usize, k: usize) -> u64
    requires call_lt_max_calls { call < max_calls }
    requires k_lt_status_words { k < status_words }
    ensures { result ≡ status_word status.now call k }
{
    wire::get_or(status, STATUS_WORDS * call + k, 0)
}

// Whether the state of each call is one.
pub(crate) fn states_allowed(status: &[u64], calls: usize) -> bool
    requires { calls ≤ max_calls }
    ensures { result ≡ states_allowed status.now calls }
{
    (0..calls).all(|call| status_word(status, call, STATE_WORD) <= FINISHED)
}

// Whether all calls are finished.
pub(crate) fn all_finished(status: &[u64], calls: usize) -> bool
    requires { calls ≤ max_calls }
    ensures { result ≡ all_finished status.now calls }
{
    (0..calls).all(|call| status_word(status, call, STATE_WORD) == FINISHED)
}

// A receipt's outcome and count are in their ranges.
fn receipt_allowed(outcome: u64, count: u64) -> bool
    ensures { result ≡ (leb outcome last_outcome && leb count max_count) }
{
    outcome <= LAST_OUTCOME && count <= MAX_COUNT
}

// Whether the receipt of each call is one.
pub(crate) fn receipts_allowed(status: &[u64], calls: usize) -> bool
    requires { calls ≤ max_calls }
    ensures { result ≡ receipts_allowed status.now calls }
{
    (0..calls).all(|call| {
        receipt_allowed(
            status_word(status, call, OUTCOME_WORD),
            status_word(status, call, COUNT_WORD),
        )
    })
}

// A balance, which is a cell of field 0, is not below zero.
fn balance_allowed(high: u64, value: i64) -> bool
    ensures { result ≡ (not (eqb (high / 2 ^ 32 % 2 ^ 16) 0) || non_neg value) }
{
    high / FIELD_BASE % FIELDS != 0 || value >= 0
}

// One look at each cell, for 20 and for 28: how many of the cells have a record, or none where a balance is below zero.
// Stays: a loop (d). It refuses and counts at once; a chain for each would read every cell twice.
pub(crate) fn cells_found(keys: &[u64], cells: &[i64], count: usize) -> Option<usize>
    requires { count ≤ max_keys }
    ensures { result ≡ found_in keys.now cells.now count }
{
    let mut records = 0;
    for n in 0..count {
        let value = wire::get_or(cells, n, 0);
        let high = wire::get_or(keys, KEY_WORDS * n, 0);
        if !balance_allowed(high, value) {
            return None;
        }
        if value != 0 {
            records += 1;
        }
    }
    Some(records)
}
