// A move line, byte by byte, and the move that it names.
ghost use Rattle.std.specs.Prelude.{◌≡◌, true, ◌-◌};
ghost use Rattle.wire.specs.Decimal.{zero_digit};
ghost use Rattle.console.specs.Line.{is_digit, takes_digit, read_byte, line_move};

use console::{Letter, Line};
use schedule::Move;
use wire::decimal::{SPACE, ZERO_DIGIT};

// A number has at most five digits, and those read before a further one make less than 100,000.
const MAX_DIGITS: usize = 5;

const MAX_NUMBER: usize = 100000;

// Whether a byte is a decimal digit.
fn is_digit(x: u8) -> bool
    ensures { result ≡ is_digit x }
{
    x.is_ascii_digit()
}

// Whether a byte is a further digit of a number that has some.
fn takes_digit(digits: usize, n: usize, x: u8) -> bool
    ensures { result ≡ takes_digit digits n x }
{
    is_digit(x) && digits < MAX_DIGITS && n < MAX_NUMBER
}

// The number that a digit is.
fn digit(x: u8) -> usize
    requires { is_digit x ≡ true }
    ensures { result ≡ x - zero_digit }
{
    usize::from(x - ZERO_DIGIT)
}

// One byte of a line, other than a line feed.
#[tactic(auto, unfolding(console::specs::Line::read_byte, console::specs::Line::read_letter, console::specs::Line::read_gap))]
pub fn read_byte(line: Line, x: u8) -> Line
    ensures { result ≡ read_byte line x }
{
    match line {
        Line::Empty if x == b'b' => Line::Named(Letter::B),
        Line::Empty if x == b's' => Line::Named(Letter::S),
        Line::Empty if x == b'c' => Line::Named(Letter::C),
        Line::Named(letter) if x == SPACE => Line::Spaced(letter),
        Line::Spaced(letter) if is_digit(x) => Line::First {
            letter,
            digits: 1,
            number: digit(x),
        },
        Line::First {
            letter,
            digits,
            number,
        } if takes_digit(digits, number, x) => Line::First {
            letter,
            digits: digits + 1,
            number: number * 10 + digit(x),
        },
        Line::First {
            letter: Letter::B,
            number,
            ..
        } if x == SPACE => Line::Between { worker: number },
        Line::Between { worker } if is_digit(x) => Line::Second {
            worker,
            digits: 1,
            number: digit(x),
        },
        Line::Second {
            worker,
            digits,
            number,
        } if takes_digit(digits, number, x) => Line::Second {
            worker,
            digits: digits + 1,
            number: number * 10 + digit(x),
        },
        _ => Line::Malformed,
    }
}

// The move of a whole line; in no such form, none.
#[tactic(auto, unfolding(console::specs::Line::line_move, console::specs::Line::move_for))]
pub fn line_move(line: Line) -> Option<Move>
    ensures { result ≡ line_move line }
{
    match line {
        Line::First {
            letter: Letter::S,
            number,
            ..
        } => Some(Move::Step(number)),
        Line::First {
            letter: Letter::C,
            number,
            ..
        } => Some(Move::Cancel(number)),
        Line::Second { worker, number, .. } => Some(Move::Begin(worker, number)),
        _ => None,
    }
}
