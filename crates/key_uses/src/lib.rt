// The uses of keys by a call's entry and by each instruction: the set analysis and a step ask the same functions.
#![tactic(auto)]

ghost use Rattle.std.specs.Prelude.{◌≡◌, [], ◌∷◌};
ghost use Rattle.block.specs.Key.{address_number, contract_balance, key_of};
ghost use Rattle.footprint.specs.Access.{reading, writing, accesses, entry_accesses, pay_accesses};
ghost use Rattle.block.specs.Naming.{cell_key, source_value, target_of};
ghost use Rattle.key_uses.specs.Uses.{no_use, use_of, uses_of};

use block::{Account, Address, Call, Instr, Source};
use decoder::record::{argument, high_of, payee_of};

// A key in two words, and how it is used.
#[derive(Clone, Copy, Default)]
pub struct KeyUse {
    pub high: u64,
    pub low: u64,
    pub reads: bool,
    pub writes: bool,
}

// At most two uses, of which the first `count` stand.
#[derive(Clone, Copy, Default)]
pub struct Uses {
    pub count: usize,
    pub first: KeyUse,
    pub second: KeyUse,
}

// The number that a source gives in a call: 32 bits hold it.
#[tactic(auto, unfolding(block::specs::Naming::source_value))]
fn source_word(c: Call, s: Source) -> u32
    ensures { result ≡ source_value c s }
{
    match s {
        Source::Zero => 0,
        Source::Argument(k) => argument(c, k as usize) as u32,
        Source::Sender => u32::from(c.sender.number()),
        Source::Constant(n) => u32::from(n),
    }
}

// The number that a source gives in a call.
pub fn source_value(c: Call, s: Source) -> u64
    ensures { result ≡ source_value c s }
{
    u64::from(source_word(c, s))
}

// The use of the key with these parts.
#[tactic(auto, using(crate::proofs::AccessLaws::key_words_lem))]
fn key_use(address: Address, field: u16, a: u32, b: u32, reads: bool, writes: bool) -> KeyUse
    ensures { result ≡ use_of (record { key = key_of (address_number address) field a b; reads = reads; writes = writes }) }
{
    KeyUse {
        high: high_of(address, field, a),
        low: b as u64,
        reads,
        writes,
    }
}

// The use of the balance of an address.
fn balance_use(address: Address, reads: bool, writes: bool) -> KeyUse
    ensures { result ≡ use_of (record { key = key_of (address_number address) 0 0 0; reads = reads; writes = writes }) }
{
    key_use(address, 0, 0, 0, reads, writes)
}

// The use of a cell of the called contract.
fn cell_use(c: Call, field: u16, a: Source, b: Source, reads: bool, writes: bool) -> KeyUse
    ensures { result ≡ use_of (record { key = cell_key c field a b; reads = reads; writes = writes }) }
{
    key_use(
        Address::OfContract(c.contract),
        field,
        source_word(c, a),
        source_word(c, b),
        reads,
        writes,
    )
}

// None, one or two uses.
#[tactic(auto, unfolding(crate::specs::Uses::uses_of))]
pub fn no_uses() -> Uses
    ensures { result ≡ uses_of [] }
{
    Uses::default()
}

fn one(u: KeyUse) -> Uses
    ensures { result ≡ record { count = 1; first = u; second = no_use } }
{
    Uses {
        count: 1,
        first: u,
        ..Uses::default()
    }
}

fn two(u: KeyUse, v: KeyUse) -> Uses
    ensures { result ≡ record { count = 2; first = u; second = v } }
{
    Uses {
        count: 2,
        first: u,
        second: v,
    }
}

// "Value above 0: reads sender's balance, writes sender's and contract's."
#[tactic(auto, unfolding(crate::specs::Uses::uses_of, footprint::specs::Access::entry_accesses))]
pub fn entry_uses(c: Call) -> Uses
    ensures { result ≡ uses_of (entry_accesses c) }
{
    if 0 < c.value {
        two(
            balance_use(Address::OfAccount(c.sender), true, true),
            balance_use(Address::OfContract(c.contract), false, true),
        )
    } else {
        no_uses()
    }
}

// "GET reads its key, PUT writes its key, BAL reads the contract's balance": the uses of each.
#[tactic(auto, unfolding(crate::specs::Uses::uses_of))]
pub fn get_uses(c: Call, field: u16, a: Source, b: Source) -> Uses
    ensures { result ≡ uses_of (reading (cell_key c field a b) ∷ []) }
{
    one(cell_use(c, field, a, b, true, false))
}

#[tactic(auto, unfolding(crate::specs::Uses::uses_of))]
pub fn put_uses(c: Call, field: u16, a: Source, b: Source) -> Uses
    ensures { result ≡ uses_of (writing (cell_key c field a b) ∷ []) }
{
    one(cell_use(c, field, a, b, false, true))
}

#[tactic(auto, unfolding(crate::specs::Uses::uses_of))]
pub fn bal_uses(c: Call) -> Uses
    ensures { result ≡ uses_of (reading (contract_balance c.contract) ∷ []) }
{
    one(balance_use(Address::OfContract(c.contract), true, false))
}

// "PAY reads and writes it and writes the target's balance if the target is an account": it is the contract's balance.
#[tactic(auto, unfolding(crate::specs::Uses::uses_of, footprint::specs::Access::pay_accesses))]
fn payee_uses(c: Call, target: Option<Account>) -> Uses
    ensures { result ≡ uses_of (pay_accesses c target) }
{
    let own = balance_use(Address::OfContract(c.contract), true, true);
    match target {
        Some(account) => two(own, balance_use(Address::OfAccount(account), false, true)),
        None => one(own),
    }
}

pub fn pay_uses(c: Call, target: Source) -> Uses
    ensures { result ≡ uses_of (pay_accesses c (target_of c target)) }
{
    payee_uses(c, payee_of(source_value(c, target)))
}

// The uses of an instruction; the others use no key.
#[tactic(auto, using(crate::proofs::AccessLaws::others_none), unfolding(footprint::specs::Access::accesses))]
pub fn instr_uses(c: Call, i: Instr) -> Uses
    ensures { result ≡ uses_of (accesses c i) }
{
    match i {
        Instr::Get { field, a, b, .. } => get_uses(c, field, a, b),
        Instr::Put { field, a, b, .. } => put_uses(c, field, a, b),
        Instr::Bal { .. } => bal_uses(c),
        Instr::Pay { target, .. } => pay_uses(c, target),
        _ => no_uses(),
    }
}
