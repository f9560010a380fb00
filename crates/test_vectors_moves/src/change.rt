// What is lent, and how records change it.
use machine::Head;

const WORKERS: usize = 8;

// The field of the head from which on a record names what a worker holds.
const HELD: u64 = 4;

const TWO_BYTES: u64 = 65536;

// Kinds of records.
const BLOCK: u64 = 1;

const LENGTHS: u64 = 2;

// The head, and the lengths up to which the block and the buffers are lent.
#[derive(Clone, Copy)]
pub struct Lent {
    pub head: Head,
    pub block: usize,
    pub plan: usize,
    pub keys: usize,
    pub cells: usize,
    pub status: usize,
    pub seats: usize,
    pub frames: usize,
}

// All that can be lent of the buffers: a record changes plan and keys, too, so this is no `moves::Buffers`.
#[derive(Drop)]
pub struct Room<'a> {
    pub plan: &'a mut [u64],
    pub keys: &'a mut [u64],
    pub cells: &'a mut [i64],
    pub status: &'a mut [u64],
    pub seats: &'a mut [u64],
    pub frames: &'a mut [i64],
}

// The head of no run.
pub(crate) const NO_HEAD: Head = Head {
    workers: 0,
    calls: 0,
    cells: 0,
    first_call: 0,
    held: [0; WORKERS],
};

pub(crate) fn nothing_lent() -> Lent {
    Lent {
        head: NO_HEAD,
        block: 0,
        plan: 0,
        keys: 0,
        cells: 0,
        status: 0,
        seats: 0,
        frames: 0,
    }
}

// The parts of a record, from 1 to 3.
pub(crate) fn part_1(record: &[u8]) -> u64 {
    wire::read_le::<8>(record, 8)
}

pub(crate) fn part_2(record: &[u8]) -> u64 {
    wire::read_le::<8>(record, 16)
}

pub(crate) fn part_3(record: &[u8]) -> u64 {
    wire::read_le::<8>(record, 24)
}

pub(crate) fn with_head(mut lent: Lent, head: Head) -> Lent {
    lent.head = head;
    lent
}

// Sixteen bytes of the block.
pub(crate) fn put_bytes(record: &[u8], block: &mut [u8]) {
    let at = part_1(record) as usize;
    if block.len() <= at {
        return;
    }
    wire::write_le::<8>(block, at, part_2(record));
    if block.len() - at <= 8 {
        return;
    }
    wire::write_le::<8>(block, at + 8, part_3(record));
}

// A word of a buffer, by the buffer's number: plan, keys, cells, status, seats, frames.
pub(crate) fn put_word(record: &[u8], room: &mut Room<'_>) {
    let buffer = part_1(record);
    let i = part_2(record) as usize;
    let v = part_3(record);
    match buffer {
        0 => wire::put(room.plan, i, v),
        1 => wire::put(room.keys, i, v),
        2 => wire::put(room.cells, i, arith::signed64(v)),
        3 => wire::put(room.status, i, v),
        4 => wire::put(room.seats, i, v),
        _ => wire::put(room.frames, i, arith::signed64(v)),
    }
}

// The lengths that are lent from now on: the block's, those of plan, keys and cells, or those of status, seats and frames.
pub(crate) fn lend(mut lent: Lent, record: &[u8]) -> Lent {
    let kind = wire::read_le::<8>(record, 0);
    let first = part_1(record) as usize;
    let second = part_2(record) as usize;
    if kind == BLOCK {
        lent.block = first;
        return lent;
    }
    if kind == LENGTHS {
        lent.plan = first;
        lent.keys = second;
        lent.cells = part_3(record) as usize;
        return lent;
    }
    lent.status = first;
    lent.seats = second;
    lent.frames = part_3(record) as usize;
    lent
}

// What a worker holds: the low 16 bits of a number.
fn with_held(mut head: Head, w: usize, v: u64) -> Head {
    if w < WORKERS {
        head.held[w] = (v % TWO_BYTES) as u16;
    }
    head
}

// A number of the head: workers, calls, cells, first, and from 4 on what a worker holds.
fn damaged_head(mut head: Head, field: u64, v: u64) -> Head {
    if HELD <= field {
        return with_held(head, (field - HELD) as usize, v);
    }
    match field {
        0 => head.workers = v as usize,
        1 => head.calls = v as usize,
        2 => head.cells = v as usize,
        _ => head.first_call = v as usize,
    }
    head
}

// A number of the head, as a record says.
pub(crate) fn damage(lent: Lent, record: &[u8]) -> Lent {
    let head = damaged_head(lent.head, part_1(record), part_2(record));
    with_head(lent, head)
}
