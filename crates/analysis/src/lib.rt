// The set analysis of a block: the keys of each call, the table of all keys, and the rows of earlier conflicting calls.
#![tactic(auto)]

mod collect;
mod gather;
mod plan;
mod rows;
mod table;

ghost use Rattle.std.specs.Prelude.{◌≡◌, ◌≤◌, length};
ghost use Rattle.block.specs.Limits.{max_call_keys};
ghost use Rattle.block.specs.Reader.{read_block};
ghost use Rattle.footprint.specs.Plan.{room_enough, prepare_read, prepared_of};
ghost use Rattle.reader.specs.LayoutOfBlock.{LayoutOfBlock};
ghost use Rattle.analysis.specs.Preparing.{room_of, preparing, Blank};

use block::Refusal;
use block::limits::{MAX_CALL_KEYS, MAX_CALLS, MAX_KEYS};
use collect::{call_keys, opening_keys};
use footprint::layout::{KEY_WORDS, PLAN_WORDS};
use key_uses::KeyUse;
use plan::{opening_values, plan_calls};
use reader::Layout;

// The distinct keys of a call, each with how the call uses it: the first `count` stand.
#[derive(Clone, Copy)]
pub struct Sets {
    pub count: usize,
    pub keys: [KeyUse; MAX_CALL_KEYS],
    ghost few: { count ≤ max_call_keys },
}

// The code of the function that a call names: where it starts in the block, and how many instructions it has plus 1; both 0 for an
// unknown function.
#[derive(Clone, Copy)]
pub struct Code {
    pub start: u64,
    pub length: u64,
}

// What a block is prepared to: the numbers of its calls and of its cells, and the offset of its first call record.
#[derive(Clone, Copy)]
pub struct Prepared {
    pub calls: usize,
    pub cells: usize,
    pub first_call: usize,
}

// Whether buffers of these lengths hold the plan, the keys and the values of every block that keeps the limits.
fn room_enough(plan: usize, keys: usize, cells: usize) -> bool
    ensures { result ≡ room_enough (room_of plan keys cells) }
{
    if plan < MAX_CALLS * PLAN_WORDS {
        return false;
    }
    if keys < MAX_KEYS * KEY_WORDS {
        return false;
    }
    MAX_KEYS <= cells
}

// The plan, the keys and the values of a block that is read, in cleared buffers: 11 and 12.
fn prepare_laid(
    file: &[u8],
    l: Layout,
    plan: &mut [u64],
    keys: &mut [u64],
    values: &mut [i64],
) -> Result<Prepared, Refusal>
    requires layout_of_block { LayoutOfBlock file.now l }
    requires blank { Blank plan.old keys.old values.old }
    ensures { preparing result plan.new keys.new values.new
        ≡ prepare_read (room_of (length plan.old) (length keys.old) (length values.old))
        file.now (read_block file.now) }
{
    opening_keys(file, l, keys);
    match call_keys(file, l, keys) {
        Err(why) => {
            wire::clear(keys, 0);
            Err(why)
        }
        Ok(cells) => {
            opening_values(file, l, keys, cells, values);
            plan_calls(file, l, keys, cells, plan);
            Ok(Prepared {
                calls: l.calls,
                cells,
                first_call: l.first_call,
            })
        }
    }
}

// A file read and prepared, in cleared buffers: 1 to 12.
fn prepare_read(
    file: &[u8],
    plan: &mut [u64],
    keys: &mut [u64],
    values: &mut [i64],
) -> Result<Prepared, Refusal>
    requires { Blank plan.old keys.old values.old }
    ensures { preparing result plan.new keys.new values.new
        ≡ prepare_read (room_of (length plan.old) (length keys.old) (length values.old))
        file.now (read_block file.now) }
{
    let l = reader::read_block(file)?;
    prepare_laid(file, l, plan, keys, values)
}

// A block's counts, with its plan, its key table and its opening values in the lent buffers; or its refusal: 20 if one is too short,
// then 1 to 12. The buffers are zero if it is refused.
pub fn prepare(
    file: &[u8],
    plan: &mut [u64],
    keys: &mut [u64],
    values: &mut [i64],
) -> Result<Prepared, Refusal>
    ensures { preparing result plan.new keys.new values.new
        ≡ prepared_of (room_of (length plan.old) (length keys.old) (length values.old))
        file.now }
{
    wire::clear(plan, 0);
    wire::clear(keys, 0);
    wire::clear(values, 0);
    if !room_enough(plan.len(), keys.len(), values.len()) {
        return Err(Refusal::Buffers);
    }
    prepare_read(file, plan, keys, values)
}
