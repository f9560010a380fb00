// A function's record: the rules of its code, and what the table keeps of it.
ghost use Rattle.std.specs.Prelude.{◌≡◌, drop, length, unwrap_or, IfSome, ◌+◌, ◌*◌, ◌<◌, ◌≤◌};
ghost use Rattle.block.specs.Limits.{max_bytes};
ghost use Rattle.block.specs.Instruction.{first_invalid, instr_bytes};
ghost use Rattle.block.specs.Record.{Block, head_bytes, function_bytes};
ghost use Rattle.block.specs.Reader.{read_function};
ghost use Rattle.reader.specs.Standing.{NumbersOfBlock, TurnFollows};

use crate::{FunctionAt, Progress, Turn};
use block::address::address_of;
use block::format::{FUNCTION_BYTES, FUNCTION_KIND, HEAD_BYTES, INSTR_BYTES};
use block::limits::MAX_FUNCTIONS;
use block::{Address, Refusal};
use decoder::instruction::{decode, is_valid};
use decoder::part::short;
use decoder::record::id_of;

// The index of the first instruction of a function's body that breaks a rule.
fn first_invalid(body: &[u8], size: usize) -> Option<usize>
    requires { function_bytes + instr_bytes * size ≤ length body.now }
    ensures first { unwrap_or result size ≡ first_invalid size 0 size (drop function_bytes body.now) }
    ensures within { IfSome result (λ i. i < size) }
{
    (0..size).find(|i| !is_valid(decode(body, FUNCTION_BYTES + INSTR_BYTES * *i, size)))
}

// A function's body: 7, 5, 10, 6. Behind it the opening cells and the calls would begin.
pub(crate) fn read_function(body: &[u8], len: usize, p: Progress) -> Result<Turn, Refusal>
    requires { (function_bytes ≤ len) × (len ≤ length body.now) × (p.at + head_bytes + len ≤ max_bytes) }
    ensures { (b : Block) → NumbersOfBlock p b → TurnFollows p b result (read_function p.at len body.now b) }
{
    if MAX_FUNCTIONS <= p.functions {
        return Err(Refusal::BeyondLimit(p.at));
    }
    let Address::OfContract(contract) = address_of(short(body, 0)) else {
        return Err(Refusal::Field(p.at));
    };
    let id = id_of(contract, short(body, 2));
    let start = p.at + HEAD_BYTES + FUNCTION_BYTES;
    let size = (len - FUNCTION_BYTES) / INSTR_BYTES;
    if let Some(i) = first_invalid(body, size) {
        return Err(Refusal::Code(start + INSTR_BYTES * i));
    }
    if id < p.least {
        return Err(Refusal::NotRising(p.at));
    }
    let at = p.at + HEAD_BYTES + len;
    let next = Progress {
        kind: FUNCTION_KIND,
        at,
        functions: p.functions + 1,
        opening: at,
        first_call: at,
        least: id + 1,
        ..p
    };
    Ok(Turn::Function {
        next,
        function: FunctionAt { id, start, size },
    })
}
