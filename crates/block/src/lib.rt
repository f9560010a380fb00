// The block file: addresses, instructions, call records, and the refusals of an input.
#![tactic(auto)]

pub mod address;
pub mod format;
pub mod limits;
pub mod outcomes;

pub use address::{Account, Address, Contract};

// Where an instruction takes a part of a key, or a target, from.
#[derive(Clone, Copy)]
pub enum Source {
    Zero,
    Argument(u8),
    Sender,
    Constant(u16),
}

// An instruction; x, y and z are registers.
#[derive(Clone, Copy)]
pub enum Instr {
    Stop,
    Throw,
    Set {
        x: u8,
        value: i64,
    },
    Arg {
        x: u8,
        argument: u8,
    },
    Sender {
        x: u8,
    },
    Value {
        x: u8,
    },
    Add {
        x: u8,
        y: u8,
        z: u8,
    },
    Sub {
        x: u8,
        y: u8,
        z: u8,
    },
    Mul {
        x: u8,
        y: u8,
        z: u8,
    },
    Div {
        x: u8,
        y: u8,
        z: u8,
    },
    Get {
        x: u8,
        field: u16,
        a: Source,
        b: Source,
    },
    Put {
        x: u8,
        field: u16,
        a: Source,
        b: Source,
    },
    Bal {
        x: u8,
    },
    Pay {
        x: u8,
        target: Source,
    },
    Jeq {
        x: u8,
        y: u8,
        to: u32,
    },
    Jlt {
        x: u8,
        y: u8,
        to: u32,
    },
}

// A call record.
#[derive(Clone, Copy)]
pub struct Call {
    pub sender: Account,
    pub contract: Contract,
    pub function: u16,
    pub value: i64,
    pub arg1: u32,
    pub arg2: u32,
    pub arg3: u32,
    pub arg4: u32,
    pub fuel: u16,
}

// Why an input is refused, with the offset of the place in the file. specs/Refusal.antt has document 01's numbers.
#[derive(Clone, Copy)]
pub enum Refusal {
    InputTooLong,
    Missing(usize),
    Kind(usize),
    Length(usize),
    Field(usize),
    NotRising(usize),
    BeyondLimit(usize),
    Behind(usize),
    Balances(usize),
    Code(usize),
    CallKeys(usize),
    AllKeys(usize),
    Workers,
    Buffers,
}
