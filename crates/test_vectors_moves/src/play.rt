// Openings, moves, serial runs and sheets on the lent parts of the buffers.
use crate::answer::{number, text, verdict};
use crate::change::{Lent, NO_HEAD, Room, part_1, part_2, with_head};
use crate::close::close;
use crate::digest::digest;
use in_place::lender::{begin_lending, cancel_lending, step_lending};
use machine::numbers::refused_number;
use machine::{Answer, Head};
use moves::Buffers;

// Kinds of records; the fourth is CANCEL.
const OPEN: u64 = 4;

const BEGIN: u64 = 5;

const STEP: u64 = 6;

const SHEET: u64 = 11;

const SERIAL: u64 = 12;

// A move of a record, made on a head that is lent.
fn make(head: Head, record: &[u8], block: &[u8], run: &mut Buffers<'_>) -> Result<Head, Answer> {
    let kind = wire::read_le::<8>(record, 0);
    let worker = part_1(record) as usize;
    if kind == BEGIN {
        let call = part_2(record) as usize;
        return begin_lending(
            head,
            run.plan,
            run.keys,
            &mut *run.cells,
            run.status,
            run.seats,
            run.frames,
            worker,
            call,
        );
    }
    if kind == STEP {
        return step_lending(
            head, block, run.plan, run.keys, run.cells, run.status, run.seats, run.frames, worker,
        );
    }
    cancel_lending(
        head,
        run.plan,
        run.keys,
        run.cells,
        run.status,
        &mut *run.seats,
        &mut *run.frames,
        worker,
    )
}

// The end of a line: the hash of the run.
fn hashed(rt: &impl Print, head: Head, run: &Buffers<'_>) {
    number(rt, digest(head, run));
    text(rt, "\n");
}

// An opening, with its answer.
fn open(
    rt: &impl Print,
    record: &[u8],
    block: &[u8],
    plan: &mut [u64],
    keys: &mut [u64],
    cells: &mut [i64],
    status: &mut [u64],
    seats: &mut [u64],
    frames: &mut [i64],
) -> Head {
    let workers = part_1(record) as usize;
    let opened = opening::open(block, workers, plan, keys, cells, status, seats, frames);
    text(rt, "o");
    verdict(rt, opened);
    opened.unwrap_or(NO_HEAD)
}

// A move, with its answer.
fn move_on(
    rt: &impl Print,
    head: Head,
    record: &[u8],
    block: &[u8],
    run: &mut Buffers<'_>,
) -> Head {
    let made = make(head, record, block, run);
    text(rt, "m");
    match made {
        Ok(_) => number(rt, 0),
        Err(why) => number(rt, refused_number(why)),
    }
    made.unwrap_or(head)
}

// A move or a serial run, with its line, or a sheet: the head behind it.
fn act(rt: &impl Print, head: Head, record: &[u8], block: &[u8], run: &mut Buffers<'_>) -> Head {
    let kind = wire::read_le::<8>(record, 0);
    if kind == SHEET {
        close(rt, head, record, run);
        return head;
    }
    let next = if kind == SERIAL {
        let after = serial::serial_run(head, block, run);
        text(rt, "s");
        after
    } else {
        move_on(rt, head, record, block, run)
    };
    hashed(rt, next, run);
    next
}

// An opening, a move, a serial run or a sheet on what is lent: the head behind it.
// Stays: slices (a), since `open` is lent plan and keys to write; and a struct of parts of another's slices is not checked (c).
fn act_on_parts(
    rt: &impl Print,
    head: Head,
    record: &[u8],
    block: &[u8],
    plan: &mut [u64],
    keys: &mut [u64],
    cells: &mut [i64],
    status: &mut [u64],
    seats: &mut [u64],
    frames: &mut [i64],
) -> Head {
    let opens = wire::read_le::<8>(record, 0) == OPEN;
    let start = if opens {
        open(rt, record, block, plan, keys, cells, status, seats, frames)
    } else {
        head
    };
    let mut run = Buffers {
        plan,
        keys,
        cells,
        status,
        seats,
        frames,
    };
    if opens {
        hashed(rt, start, &run);
        return start;
    }
    act(rt, start, record, block, &mut run)
}

// The same on the part of the block and of all buffers that are lent. Nothing is done where one is longer than its buffer.
pub(crate) fn play(
    rt: &impl Print,
    lent: Lent,
    record: &[u8],
    block: &[u8],
    room: &mut Room<'_>,
) -> Lent {
    let plan = &mut *room.plan;
    let keys = &mut *room.keys;
    let cells = &mut *room.cells;
    let status = &mut *room.status;
    let seats = &mut *room.seats;
    let frames = &mut *room.frames;
    if block.len() < lent.block
        || plan.len() < lent.plan
        || keys.len() < lent.keys
        || cells.len() < lent.cells
        || status.len() < lent.status
        || seats.len() < lent.seats
        || frames.len() < lent.frames
    {
        return lent;
    }
    let head = act_on_parts(
        rt,
        lent.head,
        record,
        &block[..lent.block],
        &mut plan[..lent.plan],
        &mut keys[..lent.keys],
        &mut cells[..lent.cells],
        &mut status[..lent.status],
        &mut seats[..lent.seats],
        &mut frames[..lent.frames],
    );
    with_head(lent, head)
}
