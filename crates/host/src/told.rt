// What is told on standard error: texts, and the line of a read or a write that failed.
use std::fmt::{Display, Formatter, Write};
use std::{fmt, io};

// The system's words for an error have fewer bytes.
const WORDS: usize = 128;

// Behind its words std tells an error's number, in brackets.
const NUMBER: &str = " (os error ";

// A text whose bytes are characters, one each.
#[derive(Clone, Copy)]
pub(crate) struct Told<'a>(pub(crate) &'a [u8]);

impl Display for Told<'_> {
    fn fmt<W: Write>(&self, f: &mut Formatter<W>) -> fmt::Result {
        let text = self.0;
        for byte in text {
            f.write_char(char::from(*byte))?;
        }
        Ok(())
    }
}

// The words of an error, as far as they fit.
#[derive(Drop)]
struct Words {
    bytes: [u8; WORDS],
    length: usize,
}

impl Write for Words {
    fn write_str(&mut self, s: &str) -> fmt::Result {
        let text = s.as_bytes();
        for byte in text {
            let at = self.length;
            if WORDS <= at {
                return Err(fmt::Error);
            }
            self.bytes[at] = *byte;
            self.length = at + 1;
        }
        Ok(())
    }
}

impl Words {
    fn new() -> Words {
        Words {
            bytes: [0; WORDS],
            length: 0,
        }
    }

    fn text(&self) -> &str {
        if WORDS < self.length {
            return "";
        }
        str::from_utf8(&self.bytes[..self.length]).unwrap_or("")
    }
}

// Tells in one line on standard error what failed and the system's words for it.
pub(crate) fn fail(rt: &impl Eprint, what: &str, why: io::Error) {
    let mut words = Words::new();
    let _ = write!(words, "{why}");
    let text = words.text();
    let told = match text.split_once(NUMBER) {
        Some((told, _)) => told,
        None => text,
    };
    let _ = eprintln!(rt; "{what}: {told}");
}
