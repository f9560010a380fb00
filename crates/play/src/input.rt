// The input of REGISTER in pieces, byte by byte: each whole line is played, and its answer written.
ghost use Rattle.std.specs.Prelude.{◌≡◌, take};
ghost use Rattle.machine.specs.Answer.{answer_number};
ghost use Rattle.moves.specs.Buffers.{run_of, SameBuffers};
ghost use Rattle.text.specs.Lines.{refused_text};
ghost use Rattle.text.specs.Written.{Written};
ghost use Rattle.console.specs.Register.{answer_text, next_number, play_line, play_bytes, play_end};
ghost use Rattle.console.specs.declared.Line.TheVariants.{Empty};
ghost use Rattle.play.specs.Shown.{fresh_session, shown, shown_from};

use crate::apply::apply_move;
use crate::line::{line_move, read_byte};
use crate::{Played, Session};
use console::Line;
use machine::numbers::refused_number;
use machine::{Answer, Head};
use moves::Buffers;
use text::refused_line;
use wire::decimal::LINE_FEED;

// An answer is a letter, two numbers of at most 20 digits behind a space each, and a line feed.
pub const MAX_ANSWER: usize = 44;

// Lines are numbered up to 2^32.
const MAX_LINES: u64 = 4294967296;

// The text of an answered move from a position on; an accepted move has none.
#[tactic(auto, using(crate::proofs::AnswerLaws::refused_shown), unfolding(console::specs::Register::answer_text, machine::specs::Answer::answer_number, wire::specs::Bytes::stored))]
pub fn answer_line(out: &mut [u8], from: u32, line: u64, answer: Result<(), Answer>) -> usize
    ensures { Written out.old out.new from result (answer_text line (answer_number answer)) }
{
    match answer {
        Ok(()) => from as usize,
        Err(why) => refused_line(out, from, line, refused_number(why)),
    }
}

// The number of the line behind a line.
#[tactic(auto, unfolding(console::specs::Register::next_number))]
fn next_number(n: u64) -> u64
    ensures { result ≡ next_number n }
{
    if n < MAX_LINES { n + 1 } else { n }
}

// A whole line: its move, or, in no such form, nothing moved and 0 answered. Answers where the text ends.
fn play_line(
    s: &mut Session,
    block: &[u8],
    run: &mut Buffers<'_>,
    out: &mut [u8],
    from: u32,
) -> usize
    ensures same { SameBuffers run.old run.new }
    ensures played { shown_from s.new.number s.new.line (run_of s.new.head run.new) out.new result
        ≡ shown out.old from
        (play_line block.now
        (fresh_session s.old.number s.old.line (run_of s.old.head run.old))) }
{
    let number = s.number;
    let named = line_move(s.line);
    s.number = next_number(number);
    s.line = Line::Empty;
    let Some(m) = named else {
        return refused_line(out, from, number, 0);
    };
    match apply_move(s.head, block, run, m) {
        Ok(head) => {
            s.head = head;
            answer_line(out, from, number, Ok(()))
        }
        Err(why) => answer_line(out, from, number, Err(why)),
    }
}

// Stays: the piece and n, of 16 bits, are two parameters (a); a slice alone would ask that it is short, and no public function may ask more.
// The first n bytes of a piece of the input, played: a line feed ends the line, every other byte is read. The answers' text is stored from the
// buffer's start on.
pub fn play_chunk(
    s: Session,
    block: &[u8],
    run: &mut Buffers<'_>,
    chunk: &[u8],
    n: u16,
    out: &mut [u8],
) -> Played
    ensures same { SameBuffers run.old run.new }
    ensures played { shown_from result.session.number result.session.line
        (run_of result.session.head run.new) out.new result.length
        ≡ shown out.old 0
        (play_bytes block.now
        (fresh_session s.number s.line (run_of s.head run.old))
        (take n chunk.now)) }
{
    let end = chunk.len().min(usize::from(n));
    // Lent on as a struct of this function's own, of which the compiler knows that nothing else changes it: so each move finds the buffers where they were.
    let mut lent = Buffers {
        plan: run.plan,
        keys: run.keys,
        cells: &mut *run.cells,
        status: &mut *run.status,
        seats: &mut *run.seats,
        frames: &mut *run.frames,
    };
    let mut session = s;
    let mut length = 0;
    for &x in &chunk[..end] {
        if x == LINE_FEED {
            length = play_line(&mut session, block, &mut lent, out, length as u32);
        } else {
            session.line = read_byte(session.line, x);
        }
    }
    Played { session, length }
}

// The rest of the input, which is a line unless it is empty; a line feed ends it.
#[tactic(auto, using(crate::proofs::AnswerLaws::end_empty, crate::proofs::AnswerLaws::end_line))]
pub fn play_end(s: Session, block: &[u8], run: &mut Buffers<'_>, out: &mut [u8]) -> Played
    ensures same { SameBuffers run.old run.new }
    ensures played { shown_from result.session.number result.session.line
        (run_of result.session.head run.new) out.new result.length
        ≡ shown out.old 0
        (play_end block.now
        (fresh_session s.number s.line (run_of s.head run.old))) }
{
    if matches!(s.line, Line::Empty) {
        return Played {
            session: s,
            length: 0,
        };
    }
    // Stays: the line feed is played as a piece (b). Of two callers play_line is compiled into neither, and a move takes a third more instructions.
    play_chunk(s, block, run, b"\n", 1, out)
}
