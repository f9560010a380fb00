// The closing sheet of what is lent.
use crate::answer::{number, text};
use crate::change::part_1;
use crate::digest::bytes;
use machine::numbers::refused_number;
use machine::{Answer, Head};
use moves::Buffers;

// The number of a sheet's answer and its length, 0 if it is refused.
fn answered(rt: &impl Print, answer: Result<usize, Answer>) {
    match answer {
        Ok(n) => {
            text(rt, " 0");
            number(rt, n as u64);
        }
        Err(why) => {
            number(rt, refused_number(why));
            text(rt, " 0");
        }
    }
}

// A sheet written to an output, with its line, which ends in the hash of the output's bytes.
fn close_into(rt: &impl Print, head: Head, run: &Buffers<'_>, output: &mut [u8]) {
    let answer = closing::sheet(
        head, run.plan, run.keys, run.cells, run.status, run.seats, run.frames, output,
    );
    text(rt, "c");
    answered(rt, answer);
    number(rt, bytes(output));
    text(rt, "\n");
}

// The same with a part of an output whose bytes are 7, longer than the longest sheet by eight. Nothing is done where a longer one is asked for.
pub(crate) fn close(rt: &impl Print, head: Head, record: &[u8], run: &Buffers<'_>) {
    let mut output = [7u8; 26636];
    let room = part_1(record) as usize;
    if room <= output.len() {
        close_into(rt, head, run, &mut output[..room]);
    }
}
