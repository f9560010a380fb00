// One record of a file: its head, and its body by its kind.
ghost use Rattle.std.specs.Prelude.{◌≡◌, true, length, ◌+◌, ◌≤◌};
ghost use Rattle.block.specs.Limits.{max_bytes};
ghost use Rattle.block.specs.Record.{Block, length_allowed, head_bytes};
ghost use Rattle.block.specs.Reader.{read_call, read_end, read_body, read_record};
ghost use Rattle.reader.specs.Standing.{Steady, NumbersOfBlock, TurnFollows};

use crate::cell::read_cell;
use crate::function::read_function;
use crate::{Progress, Turn};
use block::Refusal;
use block::format::{CALL_KIND, CELL_KIND, END_KIND, FUNCTION_KIND, HEAD_BYTES};
use block::limits::MAX_CALLS;
use decoder::part::short;
use decoder::record::{call_at, length_allowed};

// A call's body: 7, 5. M-104: fuel "zero is refusal 5".
fn read_call(body: &[u8], len: usize, p: Progress) -> Result<Turn, Refusal>
    requires { p.at + head_bytes + len ≤ max_bytes }
    ensures { (b : Block) → NumbersOfBlock p b → TurnFollows p b result (read_call p.at len body.now b) }
{
    if MAX_CALLS <= p.calls {
        return Err(Refusal::BeyondLimit(p.at));
    }
    let Some(c) = call_at(body, 0) else {
        return Err(Refusal::Field(p.at));
    };
    if c.fuel == 0 {
        return Err(Refusal::Field(p.at));
    }
    Ok(Turn::More(Progress {
        kind: CALL_KIND,
        at: p.at + HEAD_BYTES + len,
        calls: p.calls + 1,
        ..p
    }))
}

// "4, end: empty, nothing after": 8.
#[tactic(auto, unfolding(block::specs::Reader::read_end))]
fn read_end(body: &[u8], p: Progress) -> Result<Turn, Refusal>
    requires { p.at + head_bytes ≤ max_bytes }
    ensures { (b : Block) → TurnFollows p b result (read_end (p.at + head_bytes + length body.now) p.at b) }
{
    if !body.is_empty() {
        return Err(Refusal::Behind(p.at + HEAD_BYTES));
    }
    Ok(Turn::End)
}

// Stays: a kind is a number (d); a file has it as 16 bits, and kinds are compared, since they never fall.
// The body of a record by its kind; it is at the front of the rest of the file.
#[tactic(auto, unfolding(block::specs::Reader::read_body))]
fn read_body(body: &[u8], kind: usize, len: usize, p: Progress) -> Result<Turn, Refusal>
    requires { (length_allowed kind len ≡ true) × (len ≤ length body.now) × Steady p × (p.at + head_bytes + len ≤ max_bytes) }
    ensures { (b : Block) → NumbersOfBlock p b → TurnFollows p b result (read_body (p.at + head_bytes + length body.now) kind p.at len body.now b) }
{
    match kind {
        FUNCTION_KIND => read_function(body, len, p),
        CELL_KIND => read_cell(body, len, p),
        CALL_KIND => read_call(body, len, p),
        _ => read_end(body, p),
    }
}

// One record at the front of the rest of a file: 2 (head), 3, 4, 2 (body), and then by its kind.
#[tactic(auto, unfolding(block::specs::Reader::read_record))]
pub(crate) fn read_record(rest: &[u8], p: Progress) -> Result<Turn, Refusal>
    requires { (p.at + length rest.now ≤ max_bytes) × Steady p }
    ensures { (b : Block) → NumbersOfBlock p b → TurnFollows p b result (read_record (p.at + length rest.now) p.kind p.at rest.now b) }
{
    let Some(body) = rest.get(HEAD_BYTES..) else {
        return Err(Refusal::Missing(p.at));
    };
    let len = short(rest, 0) as usize;
    let kind = short(rest, 2) as usize;
    if kind < FUNCTION_KIND || END_KIND < kind || kind < p.kind {
        return Err(Refusal::Kind(p.at));
    }
    if !length_allowed(kind, len) {
        return Err(Refusal::Length(p.at));
    }
    if body.len() < len {
        return Err(Refusal::Missing(p.at));
    }
    read_body(body, kind, len, p)
}
