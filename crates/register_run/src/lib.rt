// A block run with the move lines of standard input, and what is printed of it: REGISTER's text, or the sheet's bytes. As text, a refused move
// prints `r`, its line, its number; a refused block only `e`, number, offset; then the closing sheet is printed, or `r 0 27` for an unfinished
// run. As bytes, the sheet alone is printed, and these lines are told on standard error. What is handed to standard output is kept in a
// transcript that the caller lends, as far as it fits; its length changes nothing else.
#![tactic(auto)]

ghost use Rattle.std.specs.Prelude.{◌≡◌, ◌*◌, ◌≤◌, ◌<◌, length};
ghost use Rattle.moves.specs.Buffers.{run_of, SameBuffers};
ghost use Rattle.console.specs.declared.Line.TheVariants.{Empty};
ghost use Rattle.play.specs.Shown.{fresh_session};
ghost use Rattle.play.specs.AnswerLength.{max_answer};
ghost use Rattle.host.specs.Exchange.{Handed};
ghost use Rattle.printing.specs.declared.Output.TheVariants.{Text, Sheet};
ghost use Rattle.register_run.specs.Runs.{chunk_size, printed_end, InputRead, PiecePlayed, InputPlayed, RunsOn, Runs, Registers};

use block::limits::MAX_WORKERS;
use console::Line;
use host::{Exchange, FILE_BYTES};
use machine::Head;
use machine::layout::{CELLS_SIZE, FRAMES_SIZE, KEYS_SIZE, PLAN_SIZE, SEATS_SIZE, STATUS_SIZE};
use moves::Buffers;
use play::Session;
use play::input::{MAX_ANSWER, play_chunk, play_end};
use printing::{Output, close, refuse_block, say};
use std::io;
use std::io::Read;
use std::rt::Files;

// The input is read in pieces of at most so many bytes, and each byte of it makes at most MAX_ANSWER bytes of answers.
const CHUNK: usize = 512;

const ANSWERS: usize = MAX_ANSWER * CHUNK;

// "Standard input counts as ended after 2^32 - 1 bytes."
const MAX_INPUT: u32 = u32::MAX;

// A read of standard input: how the exchange stands behind it, and how many bytes came, 0 at the input's end.
#[derive(Clone, Copy)]
struct Got {
    exchange: Exchange,
    count: u16,
}

// A piece of the input, played, with its length.
#[derive(Clone, Copy)]
pub struct Piece {
    pub session: Session,
    pub exchange: Exchange,
    pub taken: u16,
}

// The input, played: the session behind it, how the exchange stands, and whether the input's end was met.
#[derive(Clone, Copy)]
pub struct Input {
    pub session: Session,
    pub exchange: Exchange,
    pub ended: bool,
}

// A block, run: whether the input's end was met, which no refused block reads, and how the exchange stands.
#[derive(Clone, Copy)]
pub struct Ran {
    pub input_ended: Option<bool>,
    pub exchange: Exchange,
}

// REGISTER, done: whether the end of block.bin was met, whether that of the input was, which no refused block reads, and how the exchange stands.
#[derive(Clone, Copy)]
pub struct Registered {
    pub file_ended: bool,
    pub input_ended: Option<bool>,
    pub exchange: Exchange,
}

// One read of standard input into the buffer's first bytes, `limit` at most.
fn read_some(rt: &(impl io::Input + Eprint), x: Exchange, chunk: &mut [u8], limit: usize) -> Got
    requires limit_in_bounds { limit ≤ length chunk.old }
    requires limit_bound { limit < 65536 }
    requires received_bound { x.received < 4294967296 }
    ensures count_le_limit { result.count ≤ limit }
    ensures input_read { InputRead x result.count result.exchange }
{
    let part = &mut chunk[..limit];
    let mut input = rt.reader();
    match input.read(part) {
        Err(why) => Got {
            exchange: host::stop(rt, "standard input", why, x),
            count: 0,
        },
        Ok(n) => Got {
            exchange: Exchange {
                received: x.received + n as u64,
                ..x
            },
            count: n as u16,
        },
    }
}

// Plays the next piece of the input, of at most `limit` bytes, and says the answers.
fn play_some(
    rt: &(impl io::Input + Print + Eprint),
    output: Output,
    s: Session,
    block: &[u8],
    run: &mut Buffers<'_>,
    x: Exchange,
    limit: usize,
    chunk: &mut [u8],
    answers: &mut [u8],
    transcript: &mut [u8],
) -> Piece
    requires limit_le_chunk_size { limit ≤ chunk_size }
    requires chunk_size_in_bounds { chunk_size ≤ length chunk.old }
    requires chunk_size_in_bounds_2 { max_answer * chunk_size ≤ length answers.old }
    requires received_bound { x.received < 4294967296 }
    ensures same { SameBuffers run.old run.new }
    ensures played { PiecePlayed output block.now
        (fresh_session s.number s.line (run_of s.head run.old)) x
        limit transcript.old result
        (run_of result.session.head run.new) transcript.new }
{
    let got = read_some(rt, x, chunk, limit);
    let p = play_chunk(s, block, run, chunk, got.count, answers);
    let exchange = say(rt, output, got.exchange, &answers[..p.length], transcript);
    Piece {
        session: p.session,
        exchange,
        taken: got.count,
    }
}

// Plays the input to its end, `limit` bytes at most, or until something fails.
fn play_input(
    rt: &(impl io::Input + Print + Eprint),
    output: Output,
    head: Head,
    block: &[u8],
    run: &mut Buffers<'_>,
    x: Exchange,
    limit: u32,
    chunk: &mut [u8],
    answers: &mut [u8],
    transcript: &mut [u8],
) -> Input
    requires chunk_size_in_bounds { chunk_size ≤ length chunk.old }
    requires chunk_size_in_bounds_2 { max_answer * chunk_size ≤ length answers.old }
    requires received_value { x.received ≡ 0 }
    ensures same { SameBuffers run.old run.new }
    ensures played { InputPlayed output block.now
        (fresh_session 1 Empty (run_of head run.old)) x limit
        transcript.old result
        (run_of result.session.head run.new) transcript.new }
{
    let mut s = Session {
        number: 1,
        line: Line::Empty,
        head,
    };
    let mut exchange = x;
    let mut left = limit;
    // Stays: the count. A turn takes as many bytes of the limit as came, so their number is no number of turns.
    while 0 < left {
        let most = CHUNK.min(left as usize);
        let piece = play_some(
            rt, output, s, block, run, exchange, most, chunk, answers, transcript,
        );
        s = piece.session;
        exchange = piece.exchange;
        if piece.taken == 0 {
            return Input {
                session: s,
                exchange,
                ended: true,
            };
        }
        if !exchange.ok {
            break;
        }
        left -= piece.taken as u32;
    }
    Input {
        session: s,
        exchange,
        ended: false,
    }
}

// The last line of the input, if it has no line feed, and the close.
fn finish(
    rt: &(impl Print + Eprint),
    output: Output,
    s: Session,
    block: &[u8],
    run: &mut Buffers<'_>,
    x: Exchange,
    transcript: &mut [u8],
) -> Exchange
    ensures same { SameBuffers run.old run.new }
    ensures text { Handed transcript.old x
        (printed_end output block.now s.number s.line (run_of s.head run.old))
        transcript.new result }
    ensures received { result.received ≡ x.received }
{
    let mut answers = [0u8; MAX_ANSWER];
    let p = play_end(s, block, run, &mut answers);
    let after = say(rt, output, x, &answers[..p.length], transcript);
    close(
        rt,
        output,
        p.session.head,
        run.plan,
        run.keys,
        &mut *run.cells,
        &mut *run.status,
        &mut *run.seats,
        &mut *run.frames,
        after,
        transcript,
    )
}

// A block that is opened, run with at most `limit` bytes of input and closed.
fn run_opened(
    rt: &(impl io::Input + Print + Eprint),
    output: Output,
    head: Head,
    block: &[u8],
    run: &mut Buffers<'_>,
    x: Exchange,
    limit: u32,
    transcript: &mut [u8],
) -> Ran
    requires { x.received ≡ 0 }
    ensures same { SameBuffers run.old run.new }
    ensures runs { RunsOn output block.now (run_of head run.old) x limit
        transcript.old result transcript.new }
{
    let mut chunk = [0u8; CHUNK];
    let mut answers = [0u8; ANSWERS];
    let i = play_input(
        rt,
        output,
        head,
        block,
        run,
        x,
        limit,
        &mut chunk,
        &mut answers,
        transcript,
    );
    let exchange = finish(rt, output, i.session, block, run, i.exchange, transcript);
    Ran {
        input_ended: Some(i.ended),
        exchange,
    }
}

// A block: its refusal, or its run with at most `limit` bytes of standard input.
pub fn run(
    rt: &(impl io::Input + Print + Eprint),
    output: Output,
    block: &[u8],
    x: Exchange,
    limit: u32,
    transcript: &mut [u8],
) -> Ran
    ensures { Runs output block.now x limit transcript.old result transcript.new }
{
    let mut plan = [0u64; PLAN_SIZE];
    let mut keys = [0u64; KEYS_SIZE];
    let mut cells = [0i64; CELLS_SIZE];
    let mut status = [0u64; STATUS_SIZE];
    let mut seats = [0u64; SEATS_SIZE];
    let mut frames = [0i64; FRAMES_SIZE];
    let start = Exchange { received: 0, ..x };
    match opening::open(
        block,
        MAX_WORKERS,
        &mut plan,
        &mut keys,
        &mut cells,
        &mut status,
        &mut seats,
        &mut frames,
    ) {
        Err(why) => {
            let exchange = refuse_block(rt, output, why, start, transcript);
            Ran {
                input_ended: None,
                exchange,
            }
        }
        Ok(head) => {
            let mut lent = Buffers {
                plan: &plan,
                keys: &keys,
                cells: &mut cells,
                status: &mut status,
                seats: &mut seats,
                frames: &mut frames,
            };
            run_opened(rt, output, head, block, &mut lent, start, limit, transcript)
        }
    }
}

// Opens block.bin of the current folder for 8 workers, plays the move lines of standard input, and prints the closing sheet. A missing file is
// read as empty; where a file cannot be read nothing is printed.
fn run_file(
    rt: &(impl Files + io::Input + Print + Eprint),
    output: Output,
    transcript: &mut [u8],
) -> Option<Registered>
    ensures { Registers output transcript.old result transcript.new }
{
    let mut file = [0u8; FILE_BYTES];
    let read = host::read_block_file(rt, &mut file)?;
    let r = run(
        rt,
        output,
        &file[..read.length],
        Exchange::new(),
        MAX_INPUT,
        transcript,
    );
    Some(Registered {
        file_ended: read.ended,
        input_ended: r.input_ended,
        exchange: r.exchange,
    })
}

// REGISTER: block.bin and standard input, and as text the answers of refused lines and the closing sheet.
pub fn register(
    rt: &(impl Files + io::Input + Print + Eprint),
    transcript: &mut [u8],
) -> Option<Registered>
    ensures { Registers Text transcript.old result transcript.new }
{
    run_file(rt, Output::Text, transcript)
}

// The same file and input, and of them the bytes of the closing sheet; a refusal is told on standard error, and no byte is printed.
pub fn write_sheet(
    rt: &(impl Files + io::Input + Print + Eprint),
    transcript: &mut [u8],
) -> Option<Registered>
    ensures { Registers Sheet transcript.old result transcript.new }
{
    run_file(rt, Output::Sheet, transcript)
}
