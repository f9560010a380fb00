// The run of a block: its opening, the moves of its workers, and the serial run.
#![tactic(auto)]

pub mod layout;
pub mod numbers;

use block::limits::MAX_WORKERS;
use layout::REGISTERS;

// The part of a run that every move asks: the numbers of workers, calls and cells, the offset of the first call record, and the call that
// each worker holds, as its number plus 1, or 0 for none.
#[derive(Clone, Copy)]
pub struct Head {
    pub workers: usize,
    pub calls: usize,
    pub cells: usize,
    pub first_call: usize,
    pub held: [u16; MAX_WORKERS],
}

// Why a move, or the closing sheet, is refused. specs/Answer.antt has document 01's numbers.
#[derive(Clone, Copy)]
pub enum Answer {
    Damaged,
    NoWorker,
    NoCall,
    WorkerBusy,
    NotWaiting,
    EarlierUnfinished,
    WorkerIdle,
    CallUnfinished,
    SheetTooLong,
}

// What a place of a call does next, before any cell is looked at: it goes on at a place, ends with an outcome, loads its
// cell into a register, stores a value in its cell, or moves an amount from its first cell to its second, ending with the
// outcome `short` where the first holds less.
#[derive(Clone, Copy)]
pub enum Next {
    Go(usize),
    End(u64),
    Load(usize),
    Store(i64),
    Transfer { amount: i64, short: u64 },
}

// That, with the registers it leaves.
#[derive(Clone, Copy)]
pub struct Action {
    pub next: Next,
    pub regs: [i64; REGISTERS],
}
