// The set analysis of a call: its distinct keys with their uses, at most 24, gathered by a function walk over an instruction walk.
ghost use Rattle.std.specs.Prelude.{◌≡◌, List, [], ◌*◌, ◌<◌, ◌≤◌, option_map, drop, length, take, position};
ghost use Rattle.block.specs.Instruction.{decode, instr_bytes};
ghost use Rattle.block.specs.Limits.{max_code};
ghost use Rattle.footprint.specs.Access.{Access, entry_accesses};
ghost use Rattle.analysis.specs.Gathered.{Gathered, Holds, same_key};
ghost use Rattle.analysis.specs.Planned.{use_flags};
ghost use Rattle.footprint.specs.Sets.{code_accesses, decoded_accesses, merge, merge_all};
ghost use Rattle.key_uses.specs.Uses.{use_of, uses_of};

use crate::Sets;
use block::Call;
use block::format::INSTR_BYTES;
use block::limits::MAX_CALL_KEYS;
use decoder::instruction::decode;
use key_uses::{KeyUse, Uses, entry_uses, instr_uses, no_uses};

// No keys.
pub(crate) fn no_keys() -> Sets
    ensures { Holds result [] }
{
    Sets {
        count: 0,
        keys: [no_uses().first; MAX_CALL_KEYS],
    }
}

// The flags of a use: 1 if it reads, plus 2 if it writes.
pub(crate) fn use_flags(u: KeyUse) -> u64
    ensures { result ≡ use_flags u }
{
    u.reads as u64 + 2 * u.writes as u64
}

// The place of a use's key among those that stand.
fn place(s: &Sets, u: KeyUse) -> Option<usize>
    ensures { result ≡ position (same_key u) (take s.now.count s.now.keys) }
{
    s.keys[..s.count]
        .iter()
        .position(|k| (k.high == u.high) & (k.low == u.low))
}

// One more use: it joins that of its key, or its key is a new one behind the others, unless there are as many as the limit. A new one is
// stored field by field, which spares the walk to carry the bytes between the fields along.
fn with_use(s: &mut Sets, u: KeyUse) -> Option<()>
    ensures { (es : List Access) (a : Access) → Holds s.old es → u ≡ use_of a → Gathered (option_map (λ _. s.new) result) (merge es a) }
{
    if let Some(at) = place(s, u) {
        let key = s.keys[at];
        s.keys[at] = KeyUse {
            reads: key.reads | u.reads,
            writes: key.writes | u.writes,
            ..key
        };
        return Some(());
    }
    if s.count == MAX_CALL_KEYS {
        return None;
    }
    s.keys[s.count] = KeyUse { ..u };
    s.count += 1;
    Some(())
}

// The uses of one instruction, or of the entry, in their order. Inlined, since preparing a large block spends most of its time in this walk.
#[inline(always)]
fn with_uses(s: &mut Sets, us: Uses) -> Option<()>
    ensures { (es more : List Access) → length more ≤ 2 → Holds s.old es → us ≡ uses_of more
        → Gathered (option_map (λ _. s.new) result) (merge_all es more) }
{
    if us.count == 0 {
        return Some(());
    }
    with_use(s, us.first)?;
    if us.count == 1 {
        return Some(());
    }
    with_use(s, us.second)
}

// The instruction walk: the uses of the instruction at `index` of a code of `size`. What does not decode uses no key.
fn uses_at(code: &[u8], index: usize, size: usize, c: Call) -> Uses
    requires { index < max_code }
    ensures { result ≡ uses_of (decoded_accesses c (decode size (drop (instr_bytes * index) code.now))) }
{
    match decode(code, INSTR_BYTES * index, size) {
        Some(i) => instr_uses(c, i),
        None => no_uses(),
    }
}

// The function walk: the uses of the entry and of every instruction of the code, reached or not.
pub(crate) fn function_sets(code: &[u8], size: usize, c: Call) -> Option<Sets>
    requires { size ≤ max_code }
    ensures { Gathered result (merge_all (merge_all [] (entry_accesses c)) (code_accesses c size size code.now)) }
{
    let mut s = no_keys();
    with_uses(&mut s, entry_uses(c))?;
    for index in 0..size {
        with_uses(&mut s, uses_at(code, index, size, c))?;
    }
    Some(s)
}
