// The records of a closing sheet. One offset is carried from record to record: where the next one stands, counted from the output's
// first byte. A record is stored there, and the offset behind it is carried on.
ghost use Rattle.std.specs.Prelude.{◌≡◌, ◌+◌, ◌*◌, ◌≤◌, ◌<◌, ◌^◌, length};
ghost use mathlib.Core.List.{◌++◌, flatten};
ghost use Rattle.wire.specs.Bytes.{bytes_of, stored};
ghost use Rattle.block.specs.Limits.{max_calls, max_keys};
ghost use Rattle.block.specs.Record.{recordOf, cell_kind};
ghost use Rattle.sheet.specs.Sheet.{key_bytes, records_at, receipt_at, records_for, lengths, offset_behind};

use crate::tests::status_word;
use block::format::{
    ADDRESS_BASE, CELL_BYTES, CELL_KIND, END_KIND, FIELD_BASE, HEAD_BYTES, RECEIPT_BYTES,
    RECEIPT_KIND,
};
use footprint::layout::KEY_WORDS;
use machine::layout::{COUNT_WORD, OUTCOME_WORD};

// The kind's place in a head that is read as one number.
const KIND_BASE: usize = 65536;

// The head of a record: "length (2 bytes, of the body), kind (2)", stored as one number of four bytes.
#[tactic(auto, using(crate::proofs::Storing::head_number))]
fn put_head(output: &mut [u8], at: usize, size: usize, kind: usize)
    requires at_bound { at < 2 ^ 32 }
    requires size_bound { size < 2 ^ 16 }
    requires kind_bound { kind < 2 ^ 16 }
    ensures { output.new ≡ stored output.old at (bytes_of 2 size ++ bytes_of 2 kind) }
{
    wire::write_le::<4>(output, at, (size + KIND_BASE * kind) as u64);
}

// A cell's key from its two words: address 2, field 2, a 4, b 4.
#[tactic(auto, using(crate::proofs::Storing::key_behind))]
fn put_key(output: &mut [u8], at: usize, high: u64, low: u64)
    requires { at < 2 ^ 32 }
    ensures { output.new ≡ stored output.old at (key_bytes high low) }
{
    wire::write_le::<2>(output, at, high / ADDRESS_BASE);
    wire::write_le::<2>(output, at + 2, high / FIELD_BASE);
    wire::write_le::<4>(output, at + 4, high);
    wire::write_le::<4>(output, at + 8, low);
}

// The record of a cell whose value has these bits.
#[tactic(auto, using(crate::proofs::Storing::cell_behind))]
fn put_cell_record(output: &mut [u8], at: usize, high: u64, low: u64, bits: u64)
    requires { at + 24 < 2 ^ 32 }
    ensures { output.new ≡ stored output.old at (recordOf cell_kind (key_bytes high low ++ bytes_of 8 bits)) }
{
    put_head(output, at, CELL_BYTES, CELL_KIND);
    put_key(output, at + 4, high, low);
    wire::write_le::<8>(output, at + 16, bits);
}

// "Kind 2 records of all non-zero cells": the record of cell n at the offset that is carried there, and the offset behind it; of a cell
// that is zero there is no record, and the offset stays.
#[tactic(auto, using(crate::proofs::Finding::bits_told, crate::proofs::Finding::zero_stored, crate::proofs::Finding::zero_length, crate::proofs::Finding::one_stored, crate::proofs::Finding::one_length))]
fn put_cell(keys: &[u64], cells: &[i64], n: usize, at: usize, output: &mut [u8]) -> usize
    requires n_lt_max_keys { n < max_keys }
    requires at_bound { at + 24 < 2 ^ 32 }
    ensures output_after { output.new ≡ stored output.old at (flatten (records_at keys.now cells.now n)) }
    ensures value { result ≡ at + lengths (records_at keys.now cells.now n) }
{
    let bits = arith::unsigned64(wire::get_or(cells, n, 0));
    if bits == 0 {
        return at;
    }
    let high = wire::get_or(keys, KEY_WORDS * n, 0);
    let low = wire::get_or(keys, KEY_WORDS * n + 1, 0);
    put_cell_record(output, at, high, low, bits);
    at + HEAD_BYTES + CELL_BYTES
}

// "kind 5 receipts .. (outcome 2, count 2)": that of a call, likewise.
#[tactic(auto, using(crate::proofs::Storing::receipt_behind, sheet::proofs::SheetRecords::receipt_length))]
fn put_receipt(status: &[u64], call: usize, at: usize, output: &mut [u8]) -> usize
    requires call_lt_max_calls { call < max_calls }
    requires at_bound { at + 8 < 2 ^ 32 }
    ensures output_after { output.new ≡ stored output.old at (receipt_at status.now call) }
    ensures value { result ≡ at + length (receipt_at status.now call) }
{
    let outcome = status_word(status, call, OUTCOME_WORD);
    let count = status_word(status, call, COUNT_WORD);
    put_head(output, at, RECEIPT_BYTES, RECEIPT_KIND);
    wire::write_le::<2>(output, at + 4, outcome);
    wire::write_le::<2>(output, at + 6, count);
    at + HEAD_BYTES + RECEIPT_BYTES
}

// "Kind 2 records .., kind 5 receipts .., kind 4.", stored one behind the other from the output's first byte on, and the offset behind the
// last. At record k the offset is "the sum of all earlier records' lengths, heads included": `Carried`, which both loops keep.
pub(crate) fn put_sheet(
    keys: &[u64],
    cells: &[i64],
    status: &[u64],
    count: usize,
    calls: usize,
    output: &mut [u8],
) -> usize
    requires count_le_max_keys { count ≤ max_keys }
    requires calls_le_max_calls { calls ≤ max_calls }
    ensures output_after { output.new ≡ stored output.old 0
        (flatten (records_for keys.now cells.now status.now count calls)) }
    ensures value { result ≡ offset_behind (records_for keys.now cells.now status.now count calls) }
{
    let mut at = 0;
    for n in 0..count {
        at = put_cell(keys, cells, n, at, output);
    }
    for call in 0..calls {
        at = put_receipt(status, call, at, output);
    }
    put_head(output, at, 0, END_KIND);
    at + HEAD_BYTES
}
