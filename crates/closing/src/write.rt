// The sheet written where its last tests pass.
ghost use Rattle.std.specs.Prelude.{◌≡◌, ◌≤◌, length};
ghost use Rattle.block.specs.Limits.{max_calls, max_keys};
ghost use Rattle.sheet.specs.Sheet.{cell_records, receipts_allowed, written_if, records_for};

use crate::records::put_sheet;
use crate::tests::receipts_allowed;
use block::format::{CELL_BYTES, HEAD_BYTES, RECEIPT_BYTES};
use machine::Answer;

// The sheet of a run whose calls are finished and whose cells are in their ranges and have so many records. 28, "sheet longer than the
// output buffer", by their number and that of the calls; 20 for the receipts, which only the writing uses; then the records are stored at
// the front of the output, and the offset behind the last is answered.
#[tactic(auto, using(sheet::proofs::SheetRecords::cells_few, crate::proofs::SheetSizes::sheet_length_lem), unfolding(sheet::specs::Sheet::written_if))]
pub(crate) fn write_sheet(
    keys: &[u64],
    cells: &[i64],
    status: &[u64],
    count: usize,
    calls: usize,
    records: usize,
    output: &mut [u8],
) -> Result<usize, Answer>
    requires count_le_max_keys { count ≤ max_keys }
    requires calls_le_max_calls { calls ≤ max_calls }
    requires records_value { records ≡ length (cell_records keys.now cells.now count 0) }
    ensures { record { answer = result; output = output.new }
        ≡ written_if (receipts_allowed status.now calls) output.old
        (records_for keys.now cells.now status.now count calls) }
{
    let length = (HEAD_BYTES + CELL_BYTES) * records
        + (HEAD_BYTES + RECEIPT_BYTES) * calls
        + HEAD_BYTES;
    if output.len() < length {
        return Err(Answer::SheetTooLong);
    }
    if !receipts_allowed(status, calls) {
        return Err(Answer::Damaged);
    }
    Ok(put_sheet(keys, cells, status, count, calls, output))
}
