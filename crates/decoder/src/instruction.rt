// The decoder of instructions, "op, x, y, z, then w (32 bits)": a function for each rule of specs/Instruction.antt. What breaks a
// rule is refusal 10.
ghost use Rattle.std.specs.Prelude.{◌≡◌, ◌&&◌, eqb, leb, drop};
ghost use Rattle.block.specs.Instruction.{is_register, source_of, allowed, decode_set, decode_arg, decode_fact, decode_cell, decode_pay, decode_parts, decode, is_valid};

use block::{Instr, Source};

// The opcodes.
// Stays: they are numbers (d), bytes of the code, which one match names each; an enum would repeat them in a conversion.
const STOP: u8 = 0;

const THROW: u8 = 1;

const SET: u8 = 2;

const ARG: u8 = 3;

const SENDER: u8 = 4;

const VALUE: u8 = 5;

const ADD: u8 = 6;

const SUB: u8 = 7;

const MUL: u8 = 8;

const DIV: u8 = 9;

const GET: u8 = 10;

const PUT: u8 = 11;

const BAL: u8 = 12;

const PAY: u8 = 13;

const JEQ: u8 = 14;

const JLT: u8 = 15;

// The highest register, argument and source; the sources that are the sender and the constant.
const LAST_REGISTER: u8 = 7;

const LAST_ARGUMENT: u8 = 4;

const LAST_SOURCE: u8 = 6;

const FROM_SENDER: u8 = 5;

const FROM_CONSTANT: u8 = 6;

// w holds the field in its lower half and the constant in its upper one.
const HALF: u32 = 65536;

// Where a part of a key or a target comes from.
#[tactic(auto, unfolding(block::specs::Instruction::source_of))]
fn source_of(n: u8, w: u32) -> Source
    ensures { result ≡ source_of n w }
{
    match n {
        0 => Source::Zero,
        FROM_SENDER => Source::Sender,
        FROM_CONSTANT => Source::Constant((w / HALF) as u16),
        _ => Source::Argument(n),
    }
}

// An instruction whose parts keep its rule.
fn allowed(rule: bool, i: Instr) -> Option<Instr>
    ensures { result ≡ allowed rule i }
{
    if rule { Some(i) } else { None }
}

// The rules of parts, one for each kind of instruction, which is handed over with them.
fn decode_end(x: u8, y: u8, z: u8, w: u32, i: Instr) -> Option<Instr>
    ensures { result ≡ allowed (eqb x 0 && eqb y 0 && eqb z 0 && eqb w 0) i }
{
    allowed(x == 0 && y == 0 && z == 0 && w == 0, i)
}

#[tactic(auto, unfolding(block::specs::Instruction::decode_set))]
fn decode_set(x: u8, y: u8, z: u8, w: u32) -> Option<Instr>
    ensures { result ≡ decode_set x y z w }
{
    let rule = x <= LAST_REGISTER && y == 0 && z == 0;
    let value = arith::signed32(w);
    allowed(rule, Instr::Set { x, value })
}

#[tactic(auto, unfolding(block::specs::Instruction::decode_arg))]
fn decode_arg(x: u8, y: u8, z: u8, w: u32) -> Option<Instr>
    ensures { result ≡ decode_arg x y z w }
{
    let rule = x <= LAST_REGISTER && 1 <= y && y <= LAST_ARGUMENT && z == 0 && w == 0;
    allowed(rule, Instr::Arg { x, argument: y })
}

#[tactic(auto, unfolding(block::specs::Instruction::decode_fact))]
fn decode_fact(x: u8, y: u8, z: u8, w: u32, i: Instr) -> Option<Instr>
    ensures { result ≡ decode_fact x y z w i }
{
    let rule = x <= LAST_REGISTER && y == 0 && z == 0 && w == 0;
    allowed(rule, i)
}

fn decode_arith(x: u8, y: u8, z: u8, w: u32, i: Instr) -> Option<Instr>
    ensures { result ≡ allowed (is_register x && is_register y && is_register z && eqb w 0) i }
{
    let rule = x <= LAST_REGISTER && y <= LAST_REGISTER && z <= LAST_REGISTER && w == 0;
    allowed(rule, i)
}

// The constant in w is zero if no source is the constant.
#[tactic(auto, unfolding(block::specs::Instruction::decode_cell))]
fn decode_cell(op: u8, x: u8, y: u8, z: u8, w: u32) -> Option<Instr>
    ensures { result ≡ decode_cell op x y z w }
{
    let constant = y == FROM_CONSTANT || z == FROM_CONSTANT || w / HALF == 0;
    let rule = x <= LAST_REGISTER
        && y <= LAST_SOURCE
        && z <= LAST_SOURCE
        && w % HALF != 0
        && constant;
    let field = (w % HALF) as u16;
    let a = source_of(y, w);
    let b = source_of(z, w);
    if op == GET {
        allowed(rule, Instr::Get { x, field, a, b })
    } else {
        allowed(rule, Instr::Put { x, field, a, b })
    }
}

#[tactic(auto, unfolding(block::specs::Instruction::decode_pay))]
fn decode_pay(x: u8, y: u8, z: u8, w: u32) -> Option<Instr>
    ensures { result ≡ decode_pay x y z w }
{
    let constant = y == FROM_CONSTANT || w / HALF == 0;
    let rule = x <= LAST_REGISTER && y <= LAST_SOURCE && z == 0 && w % HALF == 0 && constant;
    let target = source_of(y, w);
    allowed(rule, Instr::Pay { x, target })
}

fn decode_jump(size: usize, x: u8, y: u8, z: u8, w: u32, i: Instr) -> Option<Instr>
    ensures { result ≡ allowed (is_register x && is_register y && eqb z 0 && leb w size) i }
{
    let to = w as usize;
    let rule = x <= LAST_REGISTER && y <= LAST_REGISTER && z == 0 && to <= size;
    allowed(rule, i)
}

// An instruction of a code of `size` instructions, from its parts.
#[tactic(auto, unfolding(block::specs::Instruction::decode_parts, block::specs::Instruction::decode_end, block::specs::Instruction::decode_arith, block::specs::Instruction::decode_jump))]
fn decode_parts(size: usize, op: u8, x: u8, y: u8, z: u8, w: u32) -> Option<Instr>
    ensures { result ≡ decode_parts size op x y z w }
{
    match op {
        STOP => decode_end(x, y, z, w, Instr::Stop),
        THROW => decode_end(x, y, z, w, Instr::Throw),
        SET => decode_set(x, y, z, w),
        ARG => decode_arg(x, y, z, w),
        SENDER => decode_fact(x, y, z, w, Instr::Sender { x }),
        VALUE => decode_fact(x, y, z, w, Instr::Value { x }),
        ADD => decode_arith(x, y, z, w, Instr::Add { x, y, z }),
        SUB => decode_arith(x, y, z, w, Instr::Sub { x, y, z }),
        MUL => decode_arith(x, y, z, w, Instr::Mul { x, y, z }),
        DIV => decode_arith(x, y, z, w, Instr::Div { x, y, z }),
        GET | PUT => decode_cell(op, x, y, z, w),
        BAL => decode_fact(x, y, z, w, Instr::Bal { x }),
        PAY => decode_pay(x, y, z, w),
        JEQ => decode_jump(size, x, y, z, w, Instr::Jeq { x, y, to: w }),
        JLT => decode_jump(size, x, y, z, w, Instr::Jlt { x, y, to: w }),
        _ => None,
    }
}

// The instruction at a position of the code, which is one of `size`; bytes past the end count as 0.
pub fn decode(code: &[u8], at: usize, size: usize) -> Option<Instr>
    ensures { result ≡ decode size (drop at code.now) }
{
    let [op, x, y, z, w0, w1, w2, w3] = wire::read_le::<8>(code, at).to_le_bytes();
    let w = u32::from_le_bytes([w0, w1, w2, w3]);
    decode_parts(size, op, x, y, z, w)
}

// Whether bytes hold an instruction.
pub fn is_valid(d: Option<Instr>) -> bool
    ensures { result ≡ is_valid d }
{
    matches!(d, Some(_))
}
