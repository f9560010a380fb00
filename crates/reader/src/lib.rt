// The block reader: one record after another, with the refusals 1 to 10 in their order. Each function is the one of
// block/specs/Reader.antt of that name, on numbers that stand for the block read so far.
#![tactic(auto)]

mod cell;
mod function;
mod record;

ghost use Rattle.std.specs.Prelude.{◌≡◌, ◌+◌, ◌*◌, ◌^◌, ◌-◌, ◌<◌};
ghost use Rattle.block.specs.Reader.{read_block};
ghost use Rattle.reader.specs.Layout.{layout_of};

use crate::record::read_record;
use block::Refusal;
use block::limits::{MAX_BYTES, MAX_FUNCTIONS};

// What the reader keeps of a function: its id, contract * 65536 + number, and where its code starts and how many instructions it has.
#[derive(Clone, Copy, Default)]
pub struct FunctionAt {
    pub id: u64,
    pub start: usize,
    pub size: usize,
}

// What the reader leaves of a file: the counts, the offsets at which its opening cells and its calls begin, and the table of its
// functions.
#[derive(Clone, Copy)]
pub struct Layout {
    pub functions: usize,
    pub cells: usize,
    pub calls: usize,
    pub opening: usize,
    pub first_call: usize,
    pub table: [FunctionAt; MAX_FUNCTIONS],
}

// How far the reader has come: behind a record of a kind, at a position, with the counts and offsets of the block so far; `least` is
// the least function id that may come next, `high` * 2^32 + `low` the least key, and `sum` the sum of the balances.
#[derive(Clone, Copy, Default)]
pub struct Progress {
    pub kind: usize,
    pub at: usize,
    pub functions: usize,
    pub cells: usize,
    pub calls: usize,
    pub opening: usize,
    pub first_call: usize,
    pub least: u64,
    pub high: u64,
    pub low: u64,
    pub sum: u64,
}

// What a record leads to: the next record, behind a function with what the table keeps of it or behind another record, or the end.
#[derive(Clone, Copy)]
pub enum Turn {
    More(Progress),
    Function {
        next: Progress,
        function: FunctionAt,
    },
    End,
}

// The reader, record by record to the answer.
pub fn read_block(file: &[u8]) -> Result<Layout, Refusal>
    ensures { result ≡ layout_of (read_block file.now) }
{
    if MAX_BYTES < file.len() {
        return Err(Refusal::InputTooLong);
    }
    let mut table = [FunctionAt::default(); MAX_FUNCTIONS];
    let mut p = Progress::default();
    loop {
        match read_record(&file[p.at..], p)? {
            Turn::More(next) => p = next,
            Turn::Function { next, function } => {
                table[p.functions] = function;
                p = next;
            }
            Turn::End => {
                return Ok(Layout {
                    functions: p.functions,
                    cells: p.cells,
                    calls: p.calls,
                    opening: p.opening,
                    first_call: p.first_call,
                    table,
                });
            }
        }
    }
}
