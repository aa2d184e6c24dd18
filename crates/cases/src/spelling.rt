// How a case spells its text. `~` with two hexadecimal digits is that byte. `~<`, a number, a blank, a piece and `~>` are
// as many copies of the piece, one after the other; a piece holds no such copies. Any other byte is itself.
ghost use Rattle.std.specs.Prelude.{◌≤◌, ◌<◌, length, IfOk};

use crate::{CaseError, number};
use std::alloc::Global;

// The most bytes of a text: a longer one is a bad case.
pub const MOST: usize = 262200;

// Where a piece starts in the text, and how many copies of it are asked for.
#[derive(Clone, Copy)]
struct Piece {
    start: usize,
    times: usize,
}

// What is spelled so far: the text, and the piece that is open. A piece stands in the text once until it is closed.
#[derive(Drop)]
struct Spelling {
    text: Vec<u8>,
    open: Option<Piece>,
}

// The text that a line spells.
pub fn text_of(alloc: Global, line: &[u8]) -> Result<Vec<u8>, CaseError> {
    let mut spelling = Spelling {
        text: Vec::with_capacity(alloc, line.len().min(MOST))?,
        open: None,
    };
    let mut rest = line;
    // The rest gets shorter by what each step takes.
    while !rest.is_empty() {
        rest = spelling.step(rest)?;
    }
    let Spelling { text, open } = spelling;
    match open {
        None => Ok(text),
        Some(_) => Err(CaseError::Bad),
    }
}

impl Spelling {
    // Takes what stands at the start of a line, and gives the rest.
    fn step<'a>(&mut self, line: &'a [u8]) -> Result<&'a [u8], CaseError>
        ensures { IfOk result (λ r. 0 < length line.entry.now → length r.now < length line.entry.now) }
    {
        match line {
            [b'~', rest @ ..] => self.spelled(rest),
            [byte, rest @ ..] => {
                self.put(*byte)?;
                Ok(rest)
            }
            [] => Err(CaseError::Bad),
        }
    }

    // Takes what stands behind a `~`, and gives the rest.
    fn spelled<'a>(&mut self, line: &'a [u8]) -> Result<&'a [u8], CaseError>
        ensures { IfOk result (λ r. length r.now ≤ length line.entry.now) }
    {
        match line {
            [b'<', rest @ ..] => self.open(rest),
            [b'>', rest @ ..] => {
                self.close()?;
                Ok(rest)
            }
            [high, low, rest @ ..] => {
                let byte = byte_of(*high, *low).ok_or(CaseError::Bad)?;
                self.put(byte)?;
                Ok(rest)
            }
            _ => Err(CaseError::Bad),
        }
    }

    fn put(&mut self, byte: u8) -> Result<(), CaseError> {
        if self.text.len() >= MOST {
            return Err(CaseError::Bad);
        }
        self.text.push(byte)?;
        Ok(())
    }

    // Opens a piece, which has to stand there once at least.
    fn open<'a>(&mut self, line: &'a [u8]) -> Result<&'a [u8], CaseError>
        ensures { IfOk result (λ r. length r.now ≤ length line.entry.now) }
    {
        let (times, rest) = number::number_at(line).ok_or(CaseError::Bad)?;
        if times == 0 || self.open.is_some() {
            return Err(CaseError::Bad);
        }
        self.open = Some(Piece {
            start: self.text.len(),
            times,
        });
        Ok(rest)
    }

    // Copies that have no room are not begun.
    fn close(&mut self) -> Result<(), CaseError> {
        let Piece { start, times } = self.open.take().ok_or(CaseError::Bad)?;
        let size = self.text.len().saturating_sub(start);
        let end = start.saturating_add(size.saturating_mul(times));
        if end > MOST {
            return Err(CaseError::Bad);
        }
        self.text.resize(end, 0)?;
        repeat(&mut self.text[start..], size);
        Ok(())
    }
}

// Fills a room with copies of its first `size` bytes. What is filled is copied behind itself, so that a short piece takes few turns.
fn repeat(room: &mut [u8], size: usize) {
    let mut filled = size;
    while 0 < filled && filled < room.len() {
        let (copied, rest) = room.split_at_mut(filled);
        let more = filled.min(rest.len());
        rest[..more].copy_from_slice(&copied[..more]);
        filled += more;
    }
}

// The byte of two hexadecimal digits.
fn byte_of(high: u8, low: u8) -> Option<u8> {
    let high = char::from(high).to_digit(16)?;
    let low = char::from(low).to_digit(16)?;
    u8::try_from(high * 16 + low).ok()
}
