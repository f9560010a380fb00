// What a run prints: text lines, or the bytes of its sheet; its answers, its close, and the line of a refused block. What is handed to standard
// output is kept in a transcript that the caller lends, as far as it fits; its length changes nothing else.
#![tactic(auto)]

ghost use Rattle.std.specs.Prelude.{◌≡◌, ◌≤◌, ◌<◌, length};
ghost use Rattle.block.specs.Refusal.{number_of, offset_of};
ghost use Rattle.text.specs.Lines.{refused_text, block_refused_text};
ghost use Rattle.machine.specs.Answer.{refused_number};
ghost use Rattle.moves.specs.Lent.{lent};
ghost use Rattle.console.specs.Text.{sheet_text};
ghost use Rattle.play.specs.Printed.{max_close_text};
ghost use Rattle.host.specs.Exchange.{Handed};
ghost use Rattle.printing.specs.declared.Output.TheVariants.{Text, Sheet};
ghost use Rattle.printing.specs.Printing.{printed_lines, printed_sheet, printed_close};

use block::Refusal;
use closing::sheet;
use decoder::numbers::{number_of, offset_of};
use host::Exchange;
use machine::numbers::refused_number;
use machine::{Answer, Head};
use play::input::MAX_ANSWER;
use play::records::{MAX_CLOSE_TEXT, sheet_text};
use sheet::MAX_SHEET;

// What a run prints: text lines, or the bytes of its sheet.
#[derive(Clone, Copy)]
pub enum Output {
    Text,
    Sheet,
}

// A text of lines, printed, or, beside the sheet's bytes, told on standard error.
pub fn say(
    rt: &(impl Print + Eprint),
    output: Output,
    x: Exchange,
    text: &[u8],
    transcript: &mut [u8],
) -> Exchange
    ensures text { Handed transcript.old x (printed_lines output text.now) transcript.new result }
    ensures received { result.received ≡ x.received }
{
    match output {
        Output::Text => host::print(rt, x, text, transcript),
        Output::Sheet => host::tell(rt, x, text),
    }
}

// Prints the lines of a sheet.
fn print_lines(
    rt: &(impl Print + Eprint),
    x: Exchange,
    bytes: &[u8],
    transcript: &mut [u8],
) -> Exchange
    requires bytes_len_bound { length bytes.now < 65536 }
    requires bytes_len_bound_2 { length (sheet_text bytes.now) ≤ max_close_text }
    ensures text { Handed transcript.old x (sheet_text bytes.now) transcript.new result }
    ensures received { result.received ≡ x.received }
{
    let mut text = [0u8; MAX_CLOSE_TEXT];
    let n = sheet_text(bytes, bytes.len() as u16, &mut text);
    host::print(rt, x, &text[..n], transcript)
}

// Prints a sheet: its lines, or its bytes.
fn print_sheet(
    rt: &(impl Print + Eprint),
    output: Output,
    x: Exchange,
    bytes: &[u8],
    transcript: &mut [u8],
) -> Exchange
    requires bytes_len_bound { length bytes.now < 65536 }
    requires bytes_len_bound_2 { length (sheet_text bytes.now) ≤ max_close_text }
    ensures text { Handed transcript.old x (printed_sheet output bytes.now) transcript.new result }
    ensures received { result.received ≡ x.received }
{
    match output {
        Output::Text => print_lines(rt, x, bytes, transcript),
        Output::Sheet => host::print(rt, x, bytes, transcript),
    }
}

// Says the line of a refused sheet.
fn refuse_sheet(
    rt: &(impl Print + Eprint),
    output: Output,
    why: Answer,
    x: Exchange,
    transcript: &mut [u8],
) -> Exchange
    ensures text { Handed transcript.old x (printed_lines output (refused_text 0 (refused_number why))) transcript.new result }
    ensures received { result.received ≡ x.received }
{
    let mut text = [0u8; MAX_ANSWER];
    let n = text::refused_line(&mut text, 0, 0, refused_number(why));
    say(rt, output, x, &text[..n], transcript)
}

// The close of a run: its sheet, or the sheet's refusal.
// Stays: the buffers are six slices (a); `Buffers` has what a move writes as `&mut`, and a close only reads.
pub fn close(
    rt: &(impl Print + Eprint),
    output: Output,
    head: Head,
    plan: &[u64],
    keys: &[u64],
    cells: &[i64],
    status: &[u64],
    seats: &[u64],
    frames: &[i64],
    x: Exchange,
    transcript: &mut [u8],
) -> Exchange
    ensures text { Handed transcript.old x
        (printed_close output
        (lent head plan.now keys.now cells.now status.now seats.now
        frames.now))
        transcript.new result }
    ensures received { result.received ≡ x.received }
{
    let mut bytes = [0u8; MAX_SHEET];
    match sheet(head, plan, keys, cells, status, seats, frames, &mut bytes) {
        Ok(n) => print_sheet(rt, output, x, &bytes[..n], transcript),
        Err(why) => refuse_sheet(rt, output, why, x, transcript),
    }
}

// Says the line of a refused block.
pub fn refuse_block(
    rt: &(impl Print + Eprint),
    output: Output,
    why: Refusal,
    x: Exchange,
    transcript: &mut [u8],
) -> Exchange
    ensures text { Handed transcript.old x (printed_lines output (block_refused_text (number_of why) (offset_of why))) transcript.new result }
    ensures received { result.received ≡ x.received }
{
    let mut text = [0u8; MAX_ANSWER];
    let n = text::block_refused_line(&mut text, 0, number_of(why), offset_of(why));
    say(rt, output, x, &text[..n], transcript)
}
