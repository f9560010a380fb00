// A call's row of earlier conflicting calls, from masks kept per cell: which calls so far touch it, and which write it.
ghost use Rattle.std.specs.Prelude.{◌≡◌, ◌+◌, ◌*◌, ◌≤◌, ◌<◌, length, take};
ghost use Rattle.block.specs.Limits.{max_call_keys};
ghost use Rattle.footprint.specs.EntryUses.{entry_touches_cell};
ghost use Rattle.analysis.specs.Masks.{mask_words, row_at, entry_row, mask_row_words, marked, marked_if, add_call_words, CellsInTable};
ghost use Rattle.wire.specs.Bytes.{stored};
ghost use Rattle.wire.specs.Rows.{row_words};
ghost use Rattle.footprint.specs.Plan.{entry_cell, entry_writes};

use block::limits::MAX_CALL_KEYS;
use footprint::layout::{ENTRY_FLAGS, WRITES_FLAG};
use wire::ROW_WORDS;

// A cell's row in one of the buffers.
fn row_at(masks: &[u64], cell: usize) -> [u64; ROW_WORDS]
    requires { row_words * cell + row_words ≤ length masks.now }
    ensures { result ≡ row_at masks.now cell }
{
    let at = ROW_WORDS * cell;
    wire::row_from(&masks[at..at + ROW_WORDS])
}

// The calls that an entry waits for: those that write its cell, and if it writes the cell itself all that touch it.
fn entry_row(touched: &[u64], writers: &[u64], entry: u64) -> [u64; ROW_WORDS]
    requires lt_mask_words { entry < mask_words }
    requires mask_words_in_bounds { mask_words ≤ length touched.now }
    requires mask_words_in_bounds_2 { mask_words ≤ length writers.now }
    ensures { result ≡ entry_row touched.now writers.now entry }
{
    let cell = (entry / ENTRY_FLAGS) as usize;
    if entry % ENTRY_FLAGS < WRITES_FLAG {
        row_at(writers, cell)
    } else {
        row_at(touched, cell)
    }
}

// The row of a call with n entries: the calls so far that its entries wait for.
pub(crate) fn row_for(
    touched: &[u64],
    writers: &[u64],
    entries: [u64; MAX_CALL_KEYS],
    n: usize,
) -> [u64; ROW_WORDS]
    requires n_le_max_call_keys { n ≤ max_call_keys }
    requires cells_in_table { CellsInTable (take n entries) }
    requires mask_words_in_bounds { mask_words ≤ length touched.now }
    requires mask_words_in_bounds_2 { mask_words ≤ length writers.now }
    ensures { result ≡ mask_row_words touched.now writers.now (take n entries) }
{
    let mut row = [0; ROW_WORDS];
    for entry in &entries[..n] {
        let wider = wire::row_union(row, entry_row(touched, writers, *entry));
        row = wider;
    }
    row
}

// Words stored from a place on.
pub(crate) fn put_words(buffer: &mut [u64], at: usize, words: &[u64])
    requires { at + length words.now ≤ length buffer.old }
    ensures { buffer.new ≡ stored buffer.old at words.now }
{
    buffer[at..at + words.len()].copy_from_slice(words);
}

// A call is set in a cell's row.
fn mark(masks: &mut [u64], cell: usize, call: usize)
    requires { row_words * cell + row_words ≤ length masks.old }
    ensures { masks.new ≡ marked masks.old cell call }
{
    let row = wire::row_set(row_at(masks, cell), call);
    put_words(masks, ROW_WORDS * cell, &row);
}

// One entry of a call: its cell is touched, and written if the entry says so.
fn add_entry(touched: &mut [u64], writers: &mut [u64], entry: u64, call: usize)
    requires lt_mask_words { entry < mask_words }
    requires mask_words_in_bounds { mask_words ≤ length touched.old }
    requires mask_words_in_bounds_2 { mask_words ≤ length writers.old }
    ensures touched_after { touched.new ≡ marked touched.old (entry_cell entry) call }
    ensures writers_after { writers.new ≡ marked_if (entry_writes entry) writers.old (entry_cell entry) call }
{
    let cell = (entry / ENTRY_FLAGS) as usize;
    mark(touched, cell, call);
    if WRITES_FLAG <= entry % ENTRY_FLAGS {
        mark(writers, cell, call);
    }
}

// A call, which has n entries, is one of the calls so far.
pub(crate) fn add_call(
    touched: &mut [u64],
    writers: &mut [u64],
    entries: [u64; MAX_CALL_KEYS],
    n: usize,
    call: usize,
)
    requires n_le_max_call_keys { n ≤ max_call_keys }
    requires cells_in_table { CellsInTable (take n entries) }
    requires mask_words_in_bounds { mask_words ≤ length touched.old }
    requires mask_words_in_bounds_2 { mask_words ≤ length writers.old }
    ensures touched_after { touched.new ≡ add_call_words entry_touches_cell touched.old call (take n entries) }
    ensures writers_after { writers.new ≡ add_call_words entry_writes writers.old call (take n entries) }
{
    for entry in &entries[..n] {
        add_entry(touched, writers, *entry, call);
    }
}
