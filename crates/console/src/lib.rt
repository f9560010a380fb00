// Move lines in, text lines out: REGISTER as functions on bytes.
#![tactic(auto)]

// Which move a line's letter names.
#[derive(Clone, Copy)]
pub enum Letter {
    B,
    S,
    C,
}

// How far a line has been read: nothing yet; its letter; the space behind it; a number, with its digits so far; of `b` also
// the space behind the first number and the second; or a line in no such form.
#[derive(Clone, Copy)]
pub enum Line {
    Empty,
    Named(Letter),
    Spaced(Letter),
    First {
        letter: Letter,
        digits: usize,
        number: usize,
    },
    Between {
        worker: usize,
    },
    Second {
        worker: usize,
        digits: usize,
        number: usize,
    },
    Malformed,
}
