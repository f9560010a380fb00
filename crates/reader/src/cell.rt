// An opening cell's record: its key and value, the order of keys, and the sum of balances.
ghost use Rattle.std.specs.Prelude.{◌≡◌, eqb, leb, ◌+◌, ◌*◌, ◌^◌, ◌-◌, ◌<◌, ◌≤◌};
ghost use Rattle.block.specs.Limits.{max_bytes};
ghost use Rattle.std.specs.Prelude.{if◌then◌else◌};
ghost use Rattle.block.specs.Record.{Block, head_bytes};
ghost use Rattle.block.specs.Reader.{read_cell};
ghost use Rattle.reader.specs.Standing.{value_allowed, Steady, NumbersOfBlock, TurnFollows};

use crate::{Progress, Turn};
use block::Refusal;
use block::address::address_of;
use block::format::{CELL_KIND, HEAD_BYTES};
use block::limits::MAX_CELLS;
use decoder::part::{long, short};
use decoder::record::{high_of, key_allowed};

// The largest sum of balances.
const LARGEST_SUM: u64 = arith::LARGEST as u64;

// An opening cell's value, by its bits: "not zero, a balance above zero".
fn value_allowed(field: u16, bits: u64) -> bool
    ensures { result ≡ value_allowed field bits }
{
    if field == 0 {
        0 < arith::signed64(bits)
    } else {
        bits != 0
    }
}

// Whether the key (high, low) is at least the one (least, under).
fn rises(least: u64, under: u64, high: u64, low: u64) -> bool
    requires { (under ≤ 2 ^ 32) × (low < 2 ^ 32) }
    ensures { result ≡ leb (least * 2 ^ 32 + under) (high * 2 ^ 32 + low) }
{
    (least, under) <= (high, low)
}

// The sum of balances with one more cell.
fn sum_with(sum: u64, field: u16, bits: u64) -> u64
    requires { (sum < 2 ^ 63) × (field ≡ 0 → bits < 2 ^ 63) }
    ensures { result ≡ (if eqb field 0 then sum + bits else sum) }
{
    if field == 0 { sum + bits } else { sum }
}

// An opening cell's body: 7, 5, 6, 9. Behind it the calls would begin.
pub(crate) fn read_cell(body: &[u8], len: usize, p: Progress) -> Result<Turn, Refusal>
    requires { Steady p × (p.at + head_bytes + len ≤ max_bytes) }
    ensures { (b : Block) → NumbersOfBlock p b → TurnFollows p b result (read_cell p.at len body.now b) }
{
    if MAX_CELLS <= p.cells {
        return Err(Refusal::BeyondLimit(p.at));
    }
    let address = address_of(short(body, 0));
    let field = short(body, 2);
    let a = long(body, 4);
    let b = long(body, 8);
    let bits = wire::read_le::<8>(body, 12);
    if !key_allowed(address, field, a, b) {
        return Err(Refusal::Field(p.at));
    }
    if !value_allowed(field, bits) {
        return Err(Refusal::Field(p.at));
    }
    let high = high_of(address, field, a);
    let low = b as u64;
    if !rises(p.high, p.low, high, low) {
        return Err(Refusal::NotRising(p.at));
    }
    let sum = sum_with(p.sum, field, bits);
    if LARGEST_SUM < sum {
        return Err(Refusal::Balances(p.at));
    }
    let at = p.at + HEAD_BYTES + len;
    Ok(Turn::More(Progress {
        kind: CELL_KIND,
        at,
        cells: p.cells + 1,
        first_call: at,
        high,
        low: low + 1,
        sum,
        ..p
    }))
}
