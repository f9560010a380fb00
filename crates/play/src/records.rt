// The records of a sheet as lines of text.
ghost use Rattle.std.specs.Prelude.{◌^◌, ◌<◌, length, take, drop};
ghost use Rattle.console.specs.Text.{cell_line, receipt_line, sheet_text};
ghost use Rattle.play.specs.Printed.{TurnsWithin, Printed};
ghost use Rattle.text.specs.Written.{Written};

use crate::Reading;
use block::format::{CELL_KIND, HEAD_BYTES, RECEIPT_KIND};
use block::limits::{MAX_CALLS, MAX_KEYS};
use text::{cell_line, receipt_line};

// A cell's line is a letter, five parts behind a space each, and a line feed: two numbers of at most 5 digits, two of at most 10, and a value of
// at most 20 characters. A receipt's line is shorter.
const MAX_RECORD_TEXT: usize = 57;

// The longest text of a close: a line for each cell and each receipt.
pub const MAX_CLOSE_TEXT: usize = MAX_RECORD_TEXT * (MAX_KEYS + MAX_CALLS);

// The line of a cell, from the body of its record on.
fn put_cell(sheet: &[u8], body: usize, out: &mut [u8], from: u32) -> usize
    requires { body < 2 ^ 40 }
    ensures { Written out.old out.new from result (cell_line (drop body sheet.now)) }
{
    let address = wire::read_le::<2>(sheet, body);
    let field = wire::read_le::<2>(sheet, body + 2);
    let a = wire::read_le::<4>(sheet, body + 4);
    let b = wire::read_le::<4>(sheet, body + 8);
    let value = wire::get_i64(sheet, body + 12);
    cell_line(out, from, address, field, a, b, value)
}

// The line of a receipt, from the body of its record on.
fn put_receipt(sheet: &[u8], body: usize, call: u64, out: &mut [u8], from: u32) -> usize
    requires { body < 2 ^ 40 }
    ensures { Written out.old out.new from result (receipt_line call (drop body sheet.now)) }
{
    let outcome = wire::read_le::<2>(sheet, body);
    let count = wire::read_le::<2>(sheet, body + 2);
    receipt_line(out, from, call, outcome, count)
}

// The next record: its line; none at a record of another kind.
// Stays: a kind is a number (d); a sheet has it as 16 bits, and one match names each.
fn next_record(p: Reading, sheet: &[u8], out: &mut [u8]) -> Option<Reading>
    requires sheet_len_bound { length sheet.now < 65536 }
    requires turns_within { TurnsWithin (length sheet.now) p }
    ensures { Printed sheet.now p out.old result out.new }
{
    let size = wire::read_le::<2>(sheet, p.at) as usize;
    let body = p.at + HEAD_BYTES;
    match wire::read_le::<2>(sheet, p.at + 2) as usize {
        CELL_KIND => Some(Reading {
            at: body + size,
            call: p.call,
            end: put_cell(sheet, body, out, p.end as u32),
        }),
        RECEIPT_KIND => Some(Reading {
            at: body + size,
            call: p.call + 1,
            end: put_receipt(sheet, body, p.call, out, p.end as u32),
        }),
        _ => None,
    }
}

// All records of a sheet; of no sheet are there more than it has bytes.
// Stays: a count of turns (d). The definition has the same one, and a place that moves on by what the bytes say bounds no turns.
fn put_records(sheet: &[u8], out: &mut [u8]) -> usize
    requires { length sheet.now < 65536 }
    ensures { Written out.old out.new 0 result (sheet_text sheet.now) }
{
    let mut p = Reading {
        at: 0,
        call: 0,
        end: 0,
    };
    for _ in 0..sheet.len() {
        let Some(q) = next_record(p, sheet, out) else {
            return p.end;
        };
        p = q;
    }
    p.end
}

// Stays: the sheet and n, of 16 bits, are two parameters (a), as at `play_chunk`.
// The first n bytes of a sheet as lines, stored from the buffer's start on; answers the length of the text.
pub fn sheet_text(sheet: &[u8], n: u16, out: &mut [u8]) -> usize
    ensures { Written out.old out.new 0 result (sheet_text (take n sheet.now)) }
{
    let end = sheet.len().min(usize::from(n));
    put_records(&sheet[..end], out)
}
