// REGISTER's input as code: move lines read byte by byte, each whole line played on a lent run, the answers and the sheet as text.
#![tactic(auto)]

pub mod apply;
pub mod input;
pub mod line;
pub mod records;

use console::Line;
use machine::Head;

// Where the reading of the input stands: the number of the line from 1, what is read of it, and the head of the run.
#[derive(Clone, Copy)]
pub struct Session {
    pub number: u64,
    pub line: Line,
    pub head: Head,
}

// What a line or a piece of the input leaves: the session behind it, and the length of the answers' text so far.
#[derive(Clone, Copy)]
pub struct Played {
    pub session: Session,
    pub length: usize,
}

// The records of a sheet, read up to a position: the number of the next receipt, and where the text ends.
#[derive(Clone, Copy)]
pub struct Reading {
    pub at: usize,
    pub call: u64,
    pub end: usize,
}
