// What each instruction does, before any cell is looked at: a function for each clause of `instr_action`. A place is 0 at a call's
// entry and p + 1 at instruction p.
ghost use Rattle.std.specs.Prelude.{◌≡◌, pos, get_or, set};
ghost use Rattle.std.specs.Int.Signed.{lt_z};
ghost use Rattle.arith.specs.Compare.{eq_z};
ghost use Rattle.arith.specs.Exact.{add_of, sub_of, mul_of, div_of};
ghost use Rattle.block.specs.Record.{argument};
ghost use Rattle.block.specs.Naming.{target_of};
ghost use Rattle.machine.specs.Action.{assign, checked_action, doing, jump, pay_action};
ghost use Rattle.block.specs.Outcomes.{ended, thrown};

// Stays: document 01 names each instruction's own function, with the registers by value (a); they differ in one call each.
use arith::NoResult;
use block::outcomes::{ENDED, NOT_PAID, OUT_OF_RANGE, THROWN, ZERO_DIVISOR};
use block::{Account, Call, Source};
use decoder::record::{argument, payee_of};
use key_uses::source_value;
use machine::layout::REGISTERS;
use machine::{Action, Next};

// The value of register x, 0 for one that does not exist.
fn register(regs: [i64; REGISTERS], x: usize) -> i64
    ensures { result ≡ get_or regs x (pos 0) }
{
    regs.get(x).copied().unwrap_or(0)
}

// The registers with a value in x; one that does not exist takes none.
// Stays: a test and a store (c); with a store through regs.get_mut(x) the check leaves what the registers become open.
fn with_register(mut regs: [i64; REGISTERS], x: usize, v: i64) -> [i64; REGISTERS]
    ensures { result ≡ set regs x v }
{
    if x < REGISTERS {
        regs[x] = v;
    }
    regs
}

// x takes a value, and the call goes on behind the place.
fn assign(place: u32, regs: [i64; REGISTERS], x: usize, v: i64) -> Action
    ensures { result ≡ assign place regs x v }
{
    Action {
        next: Next::Go(place as usize + 1),
        regs: with_register(regs, x, v),
    }
}

// The call ends with an outcome.
fn end(regs: [i64; REGISTERS], outcome: u64) -> Action
    ensures { result ≡ doing regs (Next.End outcome) }
{
    Action {
        next: Next::End(outcome),
        regs,
    }
}

// x takes an exact result; "a result outside 64 signed bits .. with 4"; M-103: a zero divisor with 6.
#[tactic(auto, unfolding(machine::specs::Action::checked_action))]
fn assign_checked(place: u32, regs: [i64; REGISTERS], x: usize, r: Result<i64, NoResult>) -> Action
    ensures { result ≡ checked_action place regs x r }
{
    match r {
        Ok(v) => assign(place, regs, x, v),
        Err(NoResult::Overflow) => end(regs, OUT_OF_RANGE),
        Err(NoResult::ZeroDivisor) => end(regs, ZERO_DIVISOR),
    }
}

// 0 STOP
pub(crate) fn stop(regs: [i64; REGISTERS]) -> Action
    ensures { result ≡ doing regs (Next.End ended) }
{
    end(regs, ENDED)
}

// 1 THROW
pub(crate) fn throw(regs: [i64; REGISTERS]) -> Action
    ensures { result ≡ doing regs (Next.End thrown) }
{
    end(regs, THROWN)
}

// "2 SET x to w read as signed"
pub(crate) fn set(place: u32, regs: [i64; REGISTERS], x: usize, value: i64) -> Action
    ensures { result ≡ assign place regs x value }
{
    assign(place, regs, x, value)
}

// "3 ARG x from argument y (1 to 4)"
pub(crate) fn arg(c: Call, place: u32, regs: [i64; REGISTERS], x: usize, k: usize) -> Action
    ensures { result ≡ assign place regs x (pos (argument c k)) }
{
    assign(place, regs, x, argument(c, k) as i64)
}

// "4 SENDER x"
pub(crate) fn sender(c: Call, place: u32, regs: [i64; REGISTERS], x: usize) -> Action
    ensures { result ≡ assign place regs x (pos c.sender.0) }
{
    assign(place, regs, x, c.sender.number() as i64)
}

// "5 VALUE x"
pub(crate) fn value(c: Call, place: u32, regs: [i64; REGISTERS], x: usize) -> Action
    ensures { result ≡ assign place regs x c.value }
{
    assign(place, regs, x, c.value)
}

// "6 ADD, 7 SUB, 8 MUL, 9 DIV: x from y and z"
pub(crate) fn add(place: u32, regs: [i64; REGISTERS], x: usize, y: usize, z: usize) -> Action
    ensures { result ≡ checked_action place regs x (add_of (get_or regs y (pos 0)) (get_or regs z (pos 0))) }
{
    assign_checked(
        place,
        regs,
        x,
        arith::add(register(regs, y), register(regs, z)),
    )
}

pub(crate) fn sub(place: u32, regs: [i64; REGISTERS], x: usize, y: usize, z: usize) -> Action
    ensures { result ≡ checked_action place regs x (sub_of (get_or regs y (pos 0)) (get_or regs z (pos 0))) }
{
    assign_checked(
        place,
        regs,
        x,
        arith::sub(register(regs, y), register(regs, z)),
    )
}

pub(crate) fn mul(place: u32, regs: [i64; REGISTERS], x: usize, y: usize, z: usize) -> Action
    ensures { result ≡ checked_action place regs x (mul_of (get_or regs y (pos 0)) (get_or regs z (pos 0))) }
{
    assign_checked(
        place,
        regs,
        x,
        arith::mul(register(regs, y), register(regs, z)),
    )
}

pub(crate) fn div(place: u32, regs: [i64; REGISTERS], x: usize, y: usize, z: usize) -> Action
    ensures { result ≡ checked_action place regs x (div_of (get_or regs y (pos 0)) (get_or regs z (pos 0))) }
{
    assign_checked(
        place,
        regs,
        x,
        arith::div(register(regs, y), register(regs, z)),
    )
}

// What GET and BAL wait for: the value of their cell, which is for x.
pub(crate) fn load(regs: [i64; REGISTERS], x: usize) -> Action
    ensures { result ≡ doing regs (Next.Load x) }
{
    Action {
        next: Next::Load(x),
        regs,
    }
}

// "10 GET x": x takes the value that was loaded.
pub(crate) fn get(regs: [i64; REGISTERS], x: usize, value: i64) -> [i64; REGISTERS]
    ensures { result ≡ set regs x value }
{
    with_register(regs, x, value)
}

// "11 PUT x": the cell takes x.
pub(crate) fn put(regs: [i64; REGISTERS], x: usize) -> Action
    ensures { result ≡ doing regs (Next.Store (get_or regs x (pos 0))) }
{
    Action {
        next: Next::Store(register(regs, x)),
        regs,
    }
}

// "12 BAL x, the contract's own balance": x takes the balance that was loaded.
pub(crate) fn bal(regs: [i64; REGISTERS], x: usize, balance: i64) -> [i64; REGISTERS]
    ensures { result ≡ set regs x balance }
{
    with_register(regs, x, balance)
}

// "PAY with 5 if the amount is negative, the target no account, or the contract's balance lower"; M-101: to account 0 too.
#[tactic(auto, unfolding(machine::specs::Action::pay_action))]
fn pay_to(regs: [i64; REGISTERS], amount: i64, target: Option<Account>) -> Action
    ensures { result ≡ pay_action regs amount target }
{
    match target {
        Some(_) if 0 <= amount => Action {
            next: Next::Transfer {
                amount,
                short: NOT_PAID,
            },
            regs,
        },
        _ => end(regs, NOT_PAID),
    }
}

// "13 PAY amount x to the account that source y names"
pub(crate) fn pay(c: Call, regs: [i64; REGISTERS], x: usize, target: Source) -> Action
    ensures { result ≡ pay_action regs (get_or regs x (pos 0)) (target_of c target) }
{
    pay_to(regs, register(regs, x), payee_of(source_value(c, target)))
}

// A jump: to the instruction if the test holds, else on.
fn jump(place: u32, regs: [i64; REGISTERS], to: u16, test: bool) -> Action
    ensures { result ≡ jump place regs to test }
{
    let from = if test { u32::from(to) } else { place };
    Action {
        next: Next::Go(from as usize + 1),
        regs,
    }
}

// "14 JEQ, 15 JLT: to instruction w if x = y, or x < y"
pub(crate) fn jeq(place: u32, regs: [i64; REGISTERS], x: usize, y: usize, to: u16) -> Action
    ensures { result ≡ jump place regs to (eq_z (get_or regs x (pos 0)) (get_or regs y (pos 0))) }
{
    jump(place, regs, to, register(regs, x) == register(regs, y))
}

pub(crate) fn jlt(place: u32, regs: [i64; REGISTERS], x: usize, y: usize, to: u16) -> Action
    ensures { result ≡ jump place regs to (lt_z (get_or regs x (pos 0)) (get_or regs y (pos 0))) }
{
    jump(place, regs, to, register(regs, x) < register(regs, y))
}
