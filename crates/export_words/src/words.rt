// The head of a lent run as words: where each number stands, how they are read, and what is stored back.
ghost use Rattle.std.specs.Prelude.{◌≡◌, [], ◌∷◌, length, get_or};
ghost use Rattle.wire.specs.Bytes.{stored, repeated};
ghost use Rattle.exports.specs.Words.{held_number, head_in, held_stored};

use block::limits::MAX_WORKERS;
use machine::Head;
use std::array;

pub const WORKERS_WORD: usize = 0;

pub const CALLS_WORD: usize = 1;

pub const CELLS_WORD: usize = 2;

pub const FIRST_CALL_WORD: usize = 3;

pub const FIRST_HELD: usize = 4;

pub const HEAD_WORDS: usize = FIRST_HELD + MAX_WORKERS;

// What a worker's word says that it holds; a word beyond 16 bits is read as the largest number of 16 bits.
fn held_number(word: u64) -> u16
    ensures { result ≡ held_number word }
{
    u16::try_from(word).unwrap_or(u16::MAX)
}

// What a worker holds by the head's words.
fn held_word(words: &[u64], at: usize) -> u16
    ensures { result ≡ held_number (get_or words.now at 0) }
{
    held_number(wire::get_or(words, at, 0))
}

// The head that words stand for.
#[tactic(auto, using(crate::proofs::HeldLaws::held_each))]
pub fn head_in(words: &[u64]) -> Head
    ensures { result ≡ head_in words.now }
{
    Head {
        workers: wire::get_or(words, WORKERS_WORD, 0) as usize,
        calls: wire::get_or(words, CALLS_WORD, 0) as usize,
        cells: wire::get_or(words, CELLS_WORD, 0) as usize,
        first_call: wire::get_or(words, FIRST_CALL_WORD, 0) as usize,
        held: array::from_fn(|worker| held_word(words, FIRST_HELD + worker)),
    }
}

// A worker's word is stored where what the worker holds has changed; there is none of a worker that no head has.
#[tactic(auto, using(exports::proofs::HeadLaws::held_read), unfolding(exports::specs::Words::held_stored))]
pub fn store_held(words: &mut [u64], after: Head, worker: usize)
    ensures { words.new ≡ held_stored words.old after worker }
{
    let Some(&held) = after.held.get(worker) else {
        return;
    };
    if held_word(words, FIRST_HELD + worker) != held {
        wire::put(words, FIRST_HELD + worker, u64::from(held));
    }
}

// The words of the head of an opened run: four numbers, and zero behind them.
#[tactic(auto, unfolding(wire::specs::Bytes::stored))]
pub fn store_opened(words: &mut [u64], head: Head)
    ensures { words.new
        ≡ stored (repeated (length words.old) 0) 0
        (head.workers ∷ head.calls ∷ head.cells ∷ head.first_call ∷ []) }
{
    wire::clear(words, 0);
    wire::put(words, WORKERS_WORD, head.workers as u64);
    wire::put(words, CALLS_WORD, head.calls as u64);
    wire::put(words, CELLS_WORD, head.cells as u64);
    wire::put(words, FIRST_CALL_WORD, head.first_call as u64);
}
