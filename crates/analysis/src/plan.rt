// The plan of a block in a lent buffer, call by call, and the opening values of its cells.
ghost use Rattle.std.specs.Prelude.{◌≡◌, List, [], ◌∷◌, map, ◌+◌, ◌*◌, ◌≤◌, ◌<◌, pos, length, set};
ghost use Rattle.wire.specs.Bytes.{repeated, padded, stored};
ghost use Rattle.block.specs.Limits.{max_calls, max_keys};
ghost use Rattle.block.specs.Record.{cell_of};
ghost use Rattle.footprint.specs.Access.{Access};
ghost use Rattle.footprint.specs.Plan.{plan_words, entry_word, plans, opening_value, entry_writes};
ghost use Rattle.analysis.specs.Gathered.{Holds, Worded};
ghost use Rattle.footprint.specs.KeyWords.{keys_in};
ghost use Rattle.analysis.specs.KeyTable.{cell_place, Sorted};
ghost use Rattle.reader.specs.LayoutOfBlock.{LayoutOfBlock};
ghost use Rattle.footprint.specs.BlockSets.{TableOf, all_sets, sets_at};
ghost use Rattle.block.specs.BlockOfFile.{block_of, function_at};
ghost use Rattle.footprint.specs.EntryUses.{entry_touches_cell, entry_words};
ghost use Rattle.analysis.specs.Masks.{mask_words, mask_row_words, add_call_words};
ghost use Rattle.footprint.specs.Listed.{AllListed};
ghost use Rattle.analysis.specs.Planned.{column, words_of_call, call_words};

use crate::Sets;
use crate::collect::{call_code, call_sets};
use crate::gather::use_flags;
use crate::rows::{add_call, put_words, row_for};
use crate::table::cell_number;
use block::address::address_of;
use block::format::{CELL_BYTES, HEAD_BYTES};
use block::limits::MAX_CALL_KEYS;
use decoder::part::{from, long, short};
use decoder::record::high_of;
use footprint::layout::{ENTRY_FLAGS, FIRST_ENTRY, FIRST_ROW_WORD, PLAN_WORDS};
use reader::Layout;
use wire::ROW_WORDS;

// "2, opening cell: key 12, value 8": where the value stands in the body.
const VALUE_AT: usize = 12;

// The masks have four words for each of 1,024 cells.
const MASK_WORDS: usize = 4096;

// The entry words of a call's set, each its key's cell number and flags.
fn entries(keys: &[u64], n: usize, s: &Sets) -> [u64; MAX_CALL_KEYS]
    requires sorted { Sorted n keys.now }
    requires worded { Worded s.now }
    ensures { (es : List Access) → Holds s.now es → AllListed (keys_in n keys.now) es
        → result ≡ column (entry_word (keys_in n keys.now)) es }
{
    let mut words = [0u64; MAX_CALL_KEYS];
    for (k, key) in s.keys[..s.count].iter().enumerate() {
        let cell = cell_number(keys, n, key.high, key.low);
        words[k] = cell as u64 * ENTRY_FLAGS + use_flags(*key);
    }
    words
}

// The words of a call stored at its place in the plan.
fn put_call(
    plan: &mut [u64],
    call: usize,
    start: u64,
    size: u64,
    count: u64,
    words: [u64; MAX_CALL_KEYS],
    row: [u64; ROW_WORDS],
)
    requires { plan_words * call + plan_words ≤ length plan.old }
    ensures { plan.new ≡ stored plan.old (plan_words * call) (words_of_call (start ∷ size ∷ []) count words row) }
{
    let at = PLAN_WORDS * call;
    put_words(plan, at, &[start, size, count]);
    put_words(plan, at + FIRST_ENTRY, &words);
    put_words(plan, at + FIRST_ROW_WORD, &row);
    plan[at + FIRST_ROW_WORD + ROW_WORDS] = 0;
}

// A call: its words go into the plan, with the row that the masks of the calls before it give, and its entries into the masks.
fn plan_call(
    file: &[u8],
    l: Layout,
    keys: &[u64],
    n: usize,
    call: usize,
    plan: &mut [u64],
    touched: &mut [u64],
    writers: &mut [u64],
)
    requires layout_of_block { LayoutOfBlock file.now l }
    requires table_of { TableOf file.now (keys_in n keys.now) }
    requires sorted { Sorted n keys.now }
    requires call_in_bounds { call < length (block_of file.now).calls }
    requires plan_words_in_bounds { plan_words * call + plan_words ≤ length plan.old }
    requires mask_words_in_bounds { mask_words ≤ length touched.old }
    requires mask_words_in_bounds_2 { mask_words ≤ length writers.old }
    ensures plan_after { plan.new
        ≡ stored plan.old (plan_words * call)
        (call_words (function_at file.now call) (keys_in n keys.now) (sets_at file.now call)
        (mask_row_words touched.old writers.old
        (entry_words (keys_in n keys.now) (sets_at file.now call)))) }
    ensures touched_after { touched.new
        ≡ add_call_words entry_touches_cell touched.old call
        (entry_words (keys_in n keys.now) (sets_at file.now call)) }
    ensures writers_after { writers.new
        ≡ add_call_words entry_writes writers.old call (entry_words (keys_in n keys.now) (sets_at file.now call)) }
{
    let s = call_sets(file, l, call).unwrap();
    let count = s.count;
    let words = entries(keys, n, &s);
    let row = row_for(touched, writers, words, count);
    add_call(touched, writers, words, count, call);
    let code = call_code(file, l, call);
    put_call(
        plan,
        call,
        code.start,
        code.length,
        count as u64,
        words,
        row,
    );
}

// The plan of all calls, in block order, from masks that are kept along the way.
pub(crate) fn plan_calls(file: &[u8], l: Layout, keys: &[u64], n: usize, plan: &mut [u64])
    requires layout_of_block { LayoutOfBlock file.now l }
    requires table_of { TableOf file.now (keys_in n keys.now) }
    requires sorted { Sorted n keys.now }
    requires plan_words_in_bounds { max_calls * plan_words ≤ length plan.old }
    requires plan_value { plan.old ≡ repeated (length plan.old) 0 }
    ensures { plan.new
        ≡ padded (length plan.old) 0
        (plans (block_of file.now).functions (keys_in n keys.now) [] (block_of file.now).calls
        (all_sets file.now (block_of file.now))) }
{
    let mut touched = [0u64; MASK_WORDS];
    let mut writers = [0u64; MASK_WORDS];
    for call in 0..l.calls {
        plan_call(file, l, keys, n, call, plan, &mut touched, &mut writers);
    }
}

// The value of the opening cell whose body is given, stored at its number.
fn open_cell(body: &[u8], keys: &[u64], n: usize, values: &mut [i64])
    requires { Sorted n keys.now }
    ensures { values.new
        ≡ set values.old (cell_place (keys_in n keys.now) (cell_of body.now).key)
        (cell_of body.now).value }
{
    let high = high_of(address_of(short(body, 0)), short(body, 2), long(body, 4));
    let low = long(body, 8) as u64;
    let number = cell_number(keys, n, high, low);
    wire::put(values, number, wire::get_i64(body, VALUE_AT));
}

// The opening values of all cells, by their numbers; a cell that the opening lacks stays 0.
pub(crate) fn opening_values(file: &[u8], l: Layout, keys: &[u64], n: usize, values: &mut [i64])
    requires layout_of_block { LayoutOfBlock file.now l }
    requires table_of { TableOf file.now (keys_in n keys.now) }
    requires sorted { Sorted n keys.now }
    requires max_keys_in_bounds { max_keys ≤ length values.old }
    requires values_value { values.old ≡ repeated (length values.old) (pos 0) }
    ensures { values.new
        ≡ padded (length values.old) (pos 0)
        (map (opening_value (block_of file.now).cells) (keys_in n keys.now)) }
{
    for i in 0..l.cells {
        let at = l.opening + (HEAD_BYTES + CELL_BYTES) * i + HEAD_BYTES;
        open_cell(from(file, at), keys, n, values);
    }
}
