// The fixed sizes by their numbers.
ghost use Rattle.std.specs.Prelude.{◌≡◌};
ghost use Rattle.exports.specs.Exports.{size_of};

use crate::words::HEAD_WORDS;
use block::limits::MAX_BYTES;
use machine::layout::{CELLS_SIZE, FRAMES_SIZE, KEYS_SIZE, PLAN_SIZE, SEATS_SIZE, STATUS_SIZE};
use sheet::MAX_SHEET;

// The fixed size of this number.
#[tactic(auto, unfolding(exports::specs::Exports::size_of))]
pub fn size_of(which: usize) -> u64
    ensures { result ≡ size_of which }
{
    let sizes = [
        HEAD_WORDS as u64,
        PLAN_SIZE as u64,
        KEYS_SIZE as u64,
        CELLS_SIZE as u64,
        STATUS_SIZE as u64,
        SEATS_SIZE as u64,
        FRAMES_SIZE as u64,
        MAX_SHEET as u64,
        MAX_BYTES as u64,
    ];
    wire::get_or(&sizes, which, 0)
}
