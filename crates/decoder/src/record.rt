// The bodies of records: the code of a function, call records, and the keys they name.
ghost use Rattle.std.specs.Prelude.{◌≡◌, length, drop, ◌+◌, ◌*◌, ◌^◌, ◌≤◌};
ghost use Rattle.block.specs.Key.{address_number, payee_of, key_allowed};
ghost use Rattle.block.specs.Record.{call_bytes, call_of, argument, code_at, id_of, length_allowed};

use crate::part::{from, long, short};
use block::address::address_of;
use block::format::{
    ADDRESS_BASE, CALL_BYTES, CALL_KIND, CELL_BYTES, CELL_KIND, FIELD_BASE, FUNCTION_BYTES,
    FUNCTION_KIND, INSTR_BYTES, LONGEST_FUNCTION,
};
use block::{Account, Address, Call, Contract};

// The place value of the contract in a function's id.
const ID_BASE: u64 = 65536;

// M-101: "account 0 marks withdrawn warrants".
const WITHDRAWN: u64 = 0;

// Whom PAY pays where a number names its target: all its bits count.
#[tactic(auto, unfolding(block::specs::Key::payee_of, block::specs::Key::address_of))]
pub fn payee_of(n: u64) -> Option<Account>
    ensures { result ≡ payee_of n }
{
    match u16::try_from(n).map(address_of) {
        Ok(Address::OfAccount(account)) if n != WITHDRAWN => Some(account),
        _ => None,
    }
}

// "4 length not the kind's"
#[tactic(auto, unfolding(block::specs::Record::length_allowed))]
pub fn length_allowed(kind: usize, len: usize) -> bool
    ensures { result ≡ length_allowed kind len }
{
    match kind {
        FUNCTION_KIND => {
            FUNCTION_BYTES <= len
                && len <= LONGEST_FUNCTION
                && (len - FUNCTION_BYTES) % INSTR_BYTES == 0
        }
        CELL_KIND => len == CELL_BYTES,
        CALL_KIND => len == CALL_BYTES,
        _ => len == 0,
    }
}

// "Field 0 has only a = b = 0 and is the balance; an account has no other key (5 otherwise)."
#[tactic(auto, unfolding(block::specs::Key::key_allowed))]
pub fn key_allowed(address: Address, field: u16, a: u32, b: u32) -> bool
    ensures { result ≡ key_allowed address field a b }
{
    match address {
        Address::OfAccount(_) => field == 0 && a == 0 && b == 0,
        Address::OfContract(_) => field != 0 || (a == 0 && b == 0),
    }
}

// The first part of a key as a word: address, field, a.
pub fn high_of(address: Address, field: u16, a: u32) -> u64
    ensures { result ≡ address_number address * 2 ^ 48 + field * 2 ^ 32 + a }
{
    address.number() as u64 * ADDRESS_BASE + field as u64 * FIELD_BASE + a as u64
}

// A function's id: its contract and its number as one.
pub fn id_of(contract: Contract, number: u16) -> u64
    ensures { result ≡ id_of contract number }
{
    contract.number() as u64 * ID_BASE + number as u64
}

// The finder: the part of the lent block that holds the code of `size` instructions at `start`, cut where the block ends.
pub fn code_at(block: &[u8], start: usize, size: usize) -> &[u8]
    ensures { result.now ≡ code_at block.now start size }
{
    let code = from(block, start);
    let end = INSTR_BYTES.saturating_mul(size).min(code.len());
    &code[..end]
}

// The call of a body.
#[tactic(auto, unfolding(block::specs::Record::call_of, block::specs::Key::address_of))]
fn call_in(s: &[u8]) -> Option<Call>
    requires { call_bytes ≤ length s.now }
    ensures { result ≡ call_of s.now }
{
    let value = wire::get_i64(s, 6);
    let Address::OfAccount(sender) = address_of(short(s, 0)) else {
        return None;
    };
    let Address::OfContract(contract) = address_of(short(s, 2)) else {
        return None;
    };
    if value < 0 {
        return None;
    }
    Some(Call {
        sender,
        contract,
        function: short(s, 4),
        value,
        arg1: long(s, 14),
        arg2: long(s, 18),
        arg3: long(s, 22),
        arg4: long(s, 26),
        fuel: short(s, 30),
    })
}

// The call whose body starts at a position of the block; one that is cut is none. The body is lent as a slice of just its length, so that no
// read of its parts tests again where it ends.
pub fn call_at(block: &[u8], at: usize) -> Option<Call>
    ensures { result ≡ call_of (drop at block.now) }
{
    let Some(body) = from(block, at).get(..CALL_BYTES) else {
        return None;
    };
    call_in(body)
}

// Argument 1 to 4 of a call.
#[tactic(auto, unfolding(block::specs::Record::argument))]
pub fn argument(c: Call, k: usize) -> u64
    ensures { result ≡ argument c k }
{
    u64::from(match k {
        1 => c.arg1,
        2 => c.arg2,
        3 => c.arg3,
        _ => c.arg4,
    })
}
