// Where a call keeps a cell: the search among its entries for a key with the wanted flags.
ghost use Rattle.std.specs.Prelude.{◌≡◌, ◌&&◌, ◌||◌, not, ◌*◌, ◌≤◌, ◌<◌, length};
ghost use Rattle.std.specs.Prelude.{if◌then◌else◌};
ghost use Rattle.block.specs.Limits.{max_calls, max_keys};
ghost use Rattle.footprint.specs.Plan.{key_words, plan_words, entry_cell, entry_reads, entry_writes};
ghost use Rattle.machine.specs.Run.{has_key, plan_word};
ghost use Rattle.moves.specs.Turn.{access_of, lookup_in, EntriesReady, KeyWorded};

use crate::entries::{cell_of, entries_of, is_written};
use block::limits::{MAX_CALL_KEYS, MAX_KEYS};
use footprint::layout::{KEY_COUNT, KEY_WORDS, PLAN_WORDS};
use key_uses::KeyUse;

// Word k of a call in the plan.
pub(crate) fn plan_word(plan: &[u64], call: usize, k: usize) -> u64
    requires plan_words_in_bounds { max_calls * plan_words ≤ length plan.now }
    requires call_lt_max_calls { call < max_calls }
    requires k_lt_plan_words { k < plan_words }
    ensures { result ≡ plan_word plan.now call k }
{
    plan[PLAN_WORDS * call + k]
}

// Whether the cell of an entry has the key of a use.
fn has_key(keys: &[u64], e: u64, u: KeyUse) -> bool
    requires key_words_in_bounds { max_keys * key_words ≤ length keys.now }
    requires e_bound { entry_cell e < max_keys }
    requires key_worded { KeyWorded u }
    ensures { result ≡ has_key keys.now (entry_cell e) (access_of u).key }
{
    let at = KEY_WORDS * cell_of(e);
    (keys[at] == u.high) & (keys[at + 1] == u.low)
}

// Whether an entry has the flags that a use wants.
fn has_flags(e: u64, u: KeyUse) -> bool
    ensures { result ≡ ((not u.reads || entry_reads e) && (not u.writes || entry_writes e)) }
{
    let read = e % 2 == 1;
    (!u.reads | read) & (!u.writes | is_written(e))
}

// The cell of an entry that has the wanted key, if it has the flags too.
fn kept(e: u64, u: KeyUse) -> Option<usize>
    ensures { result
        ≡ (if (not u.reads || entry_reads e) && (not u.writes || entry_writes e) then Some (entry_cell e) else None) }
{
    has_flags(e, u).then_some(cell_of(e))
}

// The cell that the entries of a call keep for the key of a use, with the flags that it wants; an entry that is looked at has a cell
// number of the table.
pub(crate) fn lookup(plan: &[u64], keys: &[u64], call: usize, u: KeyUse) -> Option<usize>
    requires entries_ready { EntriesReady plan.now keys.now call }
    requires key_worded { KeyWorded u }
    ensures { result ≡ lookup_in plan.now keys.now call (access_of u) }
{
    let n = plan_word(plan, call, KEY_COUNT) as usize;
    if MAX_CALL_KEYS < n {
        return None;
    }
    for e in entries_of(plan, call, n) {
        if MAX_KEYS <= cell_of(*e) {
            return None;
        }
        if has_key(keys, *e, u) {
            return kept(*e, u);
        }
    }
    None
}
