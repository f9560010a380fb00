// The table of all keys of a block: the keys of its opening, and call by call those of the calls' sets.
ghost use Rattle.std.specs.Prelude.{◌≡◌, ◌+◌, ◌*◌, ◌≤◌, ◌<◌, length, drop};
ghost use Rattle.wire.specs.Bytes.{repeated, padded};
ghost use Rattle.block.specs.Limits.{max_bytes, max_code, max_keys};
ghost use Rattle.block.specs.Record.{call_id, cell_of, head_bytes, call_record_bytes};
ghost use Rattle.footprint.specs.Plan.{code_words, high_word, low_word, table_words};
ghost use Rattle.analysis.specs.Coded.{Narrow, code_in, code_sets, id_place, words_of};
ghost use Rattle.analysis.specs.Collected.{CollectedAs};
ghost use Rattle.analysis.specs.Filling.{KeysFilled, set_keys};
ghost use Rattle.analysis.specs.Gathered.{Gathered, Worded};
ghost use Rattle.analysis.specs.KeyTable.{Tabled};
ghost use Rattle.reader.specs.LayoutOfBlock.{LayoutOfBlock};
ghost use Rattle.footprint.specs.BlockSets.{analysis_of, sets_at};
ghost use Rattle.block.specs.BlockOfFile.{block_of, function_at, opening_keys};

use crate::gather::{function_sets, no_keys};
use crate::table::key_insert;
use crate::{Code, Sets};
use block::address::address_of;
use block::format::{CALL_RECORD_BYTES, CELL_BYTES, HEAD_BYTES};
use block::limits::MAX_KEYS;
use block::{Call, Refusal};
use decoder::part::{from, long, short};
use decoder::record::{call_at, code_at, high_of, id_of};
use reader::{FunctionAt, Layout};

// The code of an unknown function.
const NO_CODE: Code = Code {
    start: 0,
    length: 0,
};

// The place of the function with an id.
fn id_place(table: &[FunctionAt], id: u64) -> Option<usize>
    ensures { result ≡ id_place table.now id }
{
    table.iter().position(|f| f.id == id)
}

// The code of the function that a call names, from the layout's table.
fn code_of(l: Layout, c: Call) -> Code
    requires { Narrow l }
    ensures { result ≡ code_in l (call_id c) }
{
    let contract = c.contract;
    match id_place(&l.table[..l.functions], id_of(contract, c.function)) {
        Some(at) => Code {
            start: l.table[at].start as u64,
            length: l.table[at].size as u64 + 1,
        },
        None => NO_CODE,
    }
}

// Where the body of a call starts.
fn call_place(l: Layout, call: usize) -> usize
    requires { l.first_call + call_record_bytes * call + head_bytes ≤ max_bytes }
    ensures { result ≡ l.first_call + call_record_bytes * call + head_bytes }
{
    l.first_call + CALL_RECORD_BYTES * call + HEAD_BYTES
}

// The code of the function that a call names.
pub(crate) fn call_code(file: &[u8], l: Layout, call: usize) -> Code
    requires layout_of_block { LayoutOfBlock file.now l }
    requires call_in_bounds { call < length (block_of file.now).calls }
    ensures { words_of result ≡ code_words (function_at file.now call) }
{
    match call_at(file, call_place(l, call)) {
        Some(c) => code_of(l, c),
        None => NO_CODE,
    }
}

// The set of a call of a code, where it keeps the limit.
fn sets_of(file: &[u8], code: Code, c: Call) -> Option<Sets>
    requires { code.length ≤ max_code + 1 }
    ensures { Gathered result (code_sets file.now code c) }
{
    if code.length == 0 {
        return Some(no_keys());
    }
    let size = code.length as usize - 1;
    function_sets(code_at(file, code.start as usize, size), size, c)
}

// The set of a call, where it keeps the limit.
pub(crate) fn call_sets(file: &[u8], l: Layout, call: usize) -> Option<Sets>
    requires layout_of_block { LayoutOfBlock file.now l }
    requires call_in_bounds { call < length (block_of file.now).calls }
    ensures { Gathered result (sets_at file.now call) }
{
    match call_at(file, call_place(l, call)) {
        Some(c) => sets_of(file, code_of(l, c), c),
        None => Some(no_keys()),
    }
}

// The two words of the key of the opening cell whose body starts at a position.
fn cell_high(file: &[u8], at: usize) -> u64
    ensures { result ≡ high_word (cell_of (drop at file.now)).key }
{
    let s = from(file, at);
    high_of(address_of(short(s, 0)), short(s, 2), long(s, 4))
}

fn cell_low(file: &[u8], at: usize) -> u64
    ensures { result ≡ low_word (cell_of (drop at file.now)).key }
{
    let s = from(file, at);
    long(s, 8) as u64
}

// The keys of the opening, which rise: each goes behind those before it.
pub(crate) fn opening_keys(file: &[u8], l: Layout, keys: &mut [u64])
    requires layout_of_block { LayoutOfBlock file.now l }
    requires max_keys_in_bounds { 2 * max_keys ≤ length keys.old }
    requires keys_value { keys.old ≡ repeated (length keys.old) 0 }
    ensures { keys.new ≡ padded (length keys.old) 0 (table_words (opening_keys (block_of file.now))) }
{
    for i in 0..l.cells {
        let at = l.opening + (HEAD_BYTES + CELL_BYTES) * i + HEAD_BYTES;
        keys[2 * i] = cell_high(file, at);
        keys[2 * i + 1] = cell_low(file, at);
    }
}

// The keys of a set inserted one after another into the table of n keys, up to the first that it has no room for. The answer is the
// number of keys, where all have room.
fn insert_sets(keys: &mut [u64], n: usize, s: &Sets) -> Option<usize>
    requires tabled { Tabled n keys.old }
    requires worded { Worded s.now }
    ensures { KeysFilled n keys.old (set_keys s.now) result keys.new }
{
    let mut count = n;
    for key in &s.keys[..s.count] {
        count = key_insert(keys, count, key.high, key.low);
        if MAX_KEYS < count {
            return None;
        }
    }
    Some(count)
}

// The keys of the calls, call by call, behind those of the opening: the number of all keys, or 11 for a call of too many keys, 12 for one
// that passes the limit of all keys.
pub(crate) fn call_keys(file: &[u8], l: Layout, keys: &mut [u64]) -> Result<usize, Refusal>
    requires layout_of_block { LayoutOfBlock file.now l }
    requires max_keys_in_bounds { 2 * max_keys ≤ length keys.old }
    requires keys_value { keys.old ≡ padded (length keys.old) 0 (table_words (opening_keys (block_of file.now))) }
    ensures { CollectedAs (length keys.old) result keys.new (analysis_of file.now (block_of file.now)) }
{
    let mut n = l.cells;
    for call in 0..l.calls {
        let at = l.first_call + CALL_RECORD_BYTES * call;
        let s = call_sets(file, l, call).ok_or(Refusal::CallKeys(at))?;
        n = insert_sets(keys, n, &s).ok_or(Refusal::AllKeys(at))?;
    }
    Ok(n)
}
