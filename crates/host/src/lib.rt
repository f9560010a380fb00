// What the programs exchange with their host: the file block.bin, streams on standard input, standard output, and what is told on standard
// error. A read or a write that fails is told there in one line, and after it nothing more is written.
#![tactic(auto)]

ghost use Rattle.std.specs.Prelude.{◌≡◌, false, ◌-◌, ◌^◌, ◌<◌, ◌≤◌, length, drop, IfOk, IfSome};
ghost use Rattle.wire.specs.Bytes.{stored, repeated};
ghost use Rattle.host.specs.Exchange.{Handed, nothing_exchanged, has_arguments, Taken, PartIn, Reads, FileIn};

use block::limits::MAX_BYTES;
use std::env::FillError;
use std::io::{ErrorKind, Read};
use std::rt::{Env, Files};
use std::{fs, io};
use told::{Told, fail};

mod told;

// How the exchange stands: whether no read and no write failed, how many bytes came from standard input, and how many were handed to
// standard output.
// Stays: `ok`. `Registers` speaks of both counts after a failure too, so a Result would have the same struct on both sides.
#[derive(Clone, Copy)]
pub struct Exchange {
    pub ok: bool,
    pub received: u64,
    pub sent: usize,
}

impl Exchange {
    // Nothing came yet, and nothing was handed over.
    pub fn new() -> Exchange
        ensures { result ≡ nothing_exchanged }
    {
        Exchange {
            ok: true,
            received: 0,
            sent: 0,
        }
    }
}

// How much of a file was read: how many bytes, and whether its end was met.
#[derive(Clone, Copy)]
pub struct FileRead {
    pub length: usize,
    pub ended: bool,
}

// A part that was read: the length that was told, and how many bytes of it came.
#[derive(Clone, Copy)]
pub struct PartRead {
    pub told: usize,
    pub length: usize,
}

// Why a part was not read: the stream has no further one, or it is longer than the buffer, with the length that was told.
#[derive(Clone, Copy)]
pub enum NoPart {
    Ended,
    TooLong(usize),
}

// One byte more than a block may have is read, so that 1 is told.
pub const FILE_BYTES: usize = MAX_BYTES + 1;

// A text stored from a position of the transcript on, as far as it fits.
fn keep(transcript: &mut [u8], from: usize, text: &[u8])
    ensures { transcript.new ≡ stored transcript.old from text.now }
{
    if transcript.len() <= from {
        return;
    }
    let n = text.len().min(transcript.len() - from);
    transcript[from..from + n].copy_from_slice(&text[..n]);
}

// Tells on standard error, in one line, what failed and the system's words for it; after it nothing more is written.
pub fn stop(rt: &impl Eprint, what: &str, why: io::Error, x: Exchange) -> Exchange
    ensures { result ≡ record { ok = false; received = x.received; sent = x.sent } }
{
    fail(rt, what, why);
    Exchange { ok: false, ..x }
}

// Hands a text to standard output, whole, and keeps it in the transcript behind what was handed over before. A write that fails is told on
// standard error; after a failure nothing is handed over.
pub fn print(
    rt: &(impl Print + Eprint),
    x: Exchange,
    text: &[u8],
    transcript: &mut [u8],
) -> Exchange
    ensures text { Handed transcript.old x text.now transcript.new result }
    ensures received { result.received ≡ x.received }
{
    if !x.ok {
        return x;
    }
    let Some(sent) = x.sent.checked_add(text.len()) else {
        return Exchange { ok: false, ..x };
    };
    if let Err(why) = rt.write_all(text) {
        return stop(rt, "standard output", why, x);
    }
    keep(transcript, x.sent, text);
    Exchange { sent, ..x }
}

// Tells a text on standard error; after a failure nothing is told. Standard output is handed nothing.
pub fn tell(rt: &impl Eprint, x: Exchange, text: &[u8]) -> Exchange
    ensures { result ≡ x }
{
    if x.ok {
        let _ = rt.eprint(Told(text));
    }
    x
}

// How many words a program was started with, its own name the first; `most` at most.
pub fn argument_count(rt: &impl Env, most: usize) -> usize
    ensures { result ≤ most }
{
    let mut none = [0u8; 0];
    for i in 0..most {
        if let Err(FillError::NotPresent) = rt.arg(i, &mut none) {
            return i;
        }
    }
    most
}

// Whether a program was started with an argument beside its name; then what it reads and writes is told on standard error.
pub fn explains(rt: &impl Eprint, arguments: usize, usage: &[u8]) -> bool
    ensures { result ≡ has_arguments arguments }
{
    if arguments <= 1 {
        return false;
    }
    let _ = rt.eprint(Told(usage));
    true
}

// The bytes from a position on become zero.
fn clear_from(file: &mut [u8], from: usize)
    requires { from ≤ length file.old }
    ensures { drop from file.new ≡ repeated (length file.old - from) 0 }
{
    let rest = &mut file[from..];
    wire::clear(rest, 0);
}

// Reads the file until the buffer is full or the file ends.
// Stays: the count in the loop. A read brings as many bytes as it likes, and the library's `read_exact` does not tell how many came.
fn read_all<F: Read>(input: &mut F, file: &mut [u8]) -> io::Result<FileRead>
    ensures { IfOk result (Reads (length file.old)) }
{
    let mut length = 0;
    while length < file.len() {
        let count = input.read(&mut file[length..])?;
        if count == 0 {
            return Ok(FileRead {
                length,
                ended: true,
            });
        }
        length += count;
    }
    Ok(FileRead {
        length,
        ended: false,
    })
}

// What an opened file holds; one that is missing is empty.
fn read_opened<F: Read + Drop>(opened: io::Result<F>, file: &mut [u8]) -> io::Result<FileRead>
    ensures { IfOk result (Reads (length file.old)) }
{
    match opened {
        Ok(mut input) => read_all(&mut input, file),
        Err(why) if why.kind() == ErrorKind::NotFound => Ok(FileRead {
            length: 0,
            ended: true,
        }),
        Err(why) => Err(why),
    }
}

// The file block.bin of the current folder, as much as the buffer takes, with zeros behind it; a missing file is read as empty. A file that
// cannot be read is told on standard error; there is none then, and zeros alone.
pub fn read_block_file<R: Files + Eprint>(rt: &R, file: &mut [u8]) -> Option<FileRead>
    ensures { FileIn file.old file.new result }
{
    let opened = fs::open(rt, "block.bin");
    match read_opened(opened, file) {
        Ok(read) => {
            clear_from(file, read.length);
            Some(read)
        }
        Err(why) => {
            fail(rt, "block.bin", why);
            clear_from(file, 0);
            None
        }
    }
}

// Reads standard input until the buffer is full, the input ends or a read fails. Answers how many bytes came.
// Stays: the count in the loop, as in `read_all`; here the bytes before a failed read count.
fn read_full(rt: &impl Input, buffer: &mut [u8]) -> usize
    ensures { result ≤ length buffer.new }
{
    let mut input = rt.reader();
    let mut done = 0;
    while done < buffer.len() {
        match input.read(&mut buffer[done..]) {
            Ok(0) | Err(_) => return done,
            Ok(count) => done += count,
        }
    }
    done
}

// The next n bytes of standard input at most in the buffer's first bytes, with zeros behind them; none where the buffer has fewer. Answers how
// many came.
pub fn read_bytes(rt: &impl Input, buffer: &mut [u8], n: usize) -> usize
    ensures { Taken buffer.old buffer.new n result }
{
    if buffer.len() < n {
        clear_from(buffer, 0);
        return 0;
    }
    let got = read_full(rt, &mut buffer[..n]);
    clear_from(buffer, got);
    got
}

// The next length of a stream on standard input, in four bytes, little-endian; none at the input's end.
pub fn next_length(rt: &impl Input) -> Option<usize>
    ensures { IfSome result (λ n. n < 2 ^ 32) }
{
    let mut head = [0u8; 4];
    if read_full(rt, &mut head) < 4 {
        return None;
    }
    Some(u32::from_le_bytes(head) as usize)
}

// The next part of a stream on standard input, behind its length, in the buffer's first bytes, with zeros behind them. Where the buffer has fewer
// bytes than that length none is found.
pub fn read_part(rt: &impl Input, buffer: &mut [u8]) -> Result<PartRead, NoPart>
    ensures { PartIn buffer.old buffer.new result }
{
    let Some(told) = next_length(rt) else {
        clear_from(buffer, 0);
        return Err(NoPart::Ended);
    };
    if buffer.len() < told {
        clear_from(buffer, 0);
        return Err(NoPart::TooLong(told));
    }
    let length = read_bytes(rt, buffer, told);
    Ok(PartRead { told, length })
}
