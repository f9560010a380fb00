// What a place of a call does, as a function of the call and the registers alone.
#![tactic(auto)]

mod instruction;

ghost use Rattle.std.specs.Prelude.{◌≡◌, ◌+◌, ◌<◌, drop, set};
ghost use Rattle.block.specs.Instruction.{decode};
ghost use Rattle.machine.specs.Action.{entry_action, instr_action};
ghost use Rattle.action.specs.Acted.{acted_of, jump_of};

use block::outcomes::BALANCE_TOO_LOW;
use block::{Call, Instr};
use decoder::instruction::decode;
use instruction::{
    add, arg, bal, div, get, jeq, jlt, load, mul, pay, put, sender, set, stop, sub, throw, value,
};
use machine::layout::REGISTERS;
use machine::{Action, Next};

const FIRST_PLACE: usize = 1;

// What eight bytes of code hold, and what the call does there.
#[derive(Clone, Copy)]
pub struct Acted {
    pub decoded: Option<Instr>,
    pub action: Action,
}

// What an instruction does at a place. Its jump is that of a code's instruction, which 16 bits hold.
#[tactic(auto, unfolding(machine::specs::Action::instr_action, crate::specs::Acted::jump_of))]
fn act(c: Call, place: u32, regs: [i64; REGISTERS], i: Instr) -> Action
    requires { jump_of i < 65536 }
    ensures { result ≡ instr_action c place regs i }
{
    match i {
        Instr::Stop => stop(regs),
        Instr::Throw => throw(regs),
        Instr::Set { x, value } => set(place, regs, x as usize, value),
        Instr::Arg { x, argument } => arg(c, place, regs, x as usize, argument as usize),
        Instr::Sender { x } => sender(c, place, regs, x as usize),
        Instr::Value { x } => value(c, place, regs, x as usize),
        Instr::Add { x, y, z } => add(place, regs, x as usize, y as usize, z as usize),
        Instr::Sub { x, y, z } => sub(place, regs, x as usize, y as usize, z as usize),
        Instr::Mul { x, y, z } => mul(place, regs, x as usize, y as usize, z as usize),
        Instr::Div { x, y, z } => div(place, regs, x as usize, y as usize, z as usize),
        Instr::Get { x, .. } | Instr::Bal { x } => load(regs, x as usize),
        Instr::Put { x, .. } => put(regs, x as usize),
        Instr::Pay { x, target } => pay(c, regs, x as usize, target),
        Instr::Jeq { x, y, to } => jeq(place, regs, x as usize, y as usize, to as u16),
        Instr::Jlt { x, y, to } => jlt(place, regs, x as usize, y as usize, to as u16),
    }
}

// What the bytes at a position of the code hold, which are the instruction at `index` of `size`, and what the call does there.
#[tactic(auto, using(crate::proofs::JumpLaws::decode_bounded), unfolding(crate::specs::Acted::action_of))]
pub fn act_at(
    code: &[u8],
    at: usize,
    index: u16,
    size: u16,
    c: Call,
    regs: [i64; REGISTERS],
) -> Acted
    ensures { result ≡ acted_of c (index + 1) regs (decode size (drop at code.now)) }
{
    let decoded = decode(code, at, size as usize);
    let action = match decoded {
        Some(i) => act(c, index as u32 + 1, regs, i),
        None => Action {
            next: Next::Go(index as usize + 1),
            regs,
        },
    };
    Acted { decoded, action }
}

// The registers behind a load: BAL takes a balance, and GET any other value, since its field is not 0.
pub fn loaded(balance: bool, regs: [i64; REGISTERS], x: usize, value: i64) -> [i64; REGISTERS]
    ensures { result ≡ set regs x value }
{
    if balance {
        bal(regs, x, value)
    } else {
        get(regs, x, value)
    }
}

// "sender's balance below value, outcome 2; else value moves from sender to contract and the place is 0"
#[tactic(auto, unfolding(machine::specs::Action::entry_action))]
pub fn enter(c: Call, regs: [i64; REGISTERS]) -> Action
    ensures { result ≡ entry_action c regs }
{
    let next = if 0 < c.value {
        Next::Transfer {
            amount: c.value,
            short: BALANCE_TOO_LOW,
        }
    } else {
        Next::Go(FIRST_PLACE)
    };
    Action { next, regs }
}
