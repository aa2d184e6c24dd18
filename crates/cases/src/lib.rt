// What the test programs share: cases, one to a line, and how a line spells its text and its numbers.
#![tactic(auto)]

ghost use Rattle.std.specs.Prelude.{◌≤◌, length};

pub mod number;
pub mod spelling;

use std::alloc::{AllocError, AllocFailed};
use std::io;

// Room for the input of a test program.
pub const INPUT: usize = 65536;

// Why a case is not answered: its line spells none, or memory or an output fails.
#[derive(Debug, Drop)]
pub enum CaseError {
    Bad,
    Io(io::Error),
}

impl From<io::Error> for CaseError {
    fn from(error: io::Error) -> CaseError {
        CaseError::Io(error)
    }
}

impl From<AllocError> for CaseError {
    fn from(error: AllocError) -> CaseError {
        CaseError::Io(error.into())
    }
}

impl<T: Drop> From<AllocFailed<T>> for CaseError {
    fn from(error: AllocFailed<T>) -> CaseError {
        CaseError::Io(error.into())
    }
}

// Copies each heading of standard input, skips its empty lines, and has every other line answered as a case.
pub fn answer_all<R, F>(rt: &R, answer: F) -> io::Result<()>
where
    R: io::Input + Print + Eprint,
    F: FnMut(&[u8]) -> Result<(), CaseError>,
    requires { F.IsAlwaysCallable answer }
{
    let mut input = [0u8; INPUT];
    match streams::read_input(rt, &mut input) {
        Some(count) => answer_lines(rt, &input[..count], answer),
        None => Ok(()),
    }
}

fn answer_lines<R, F>(rt: &R, input: &[u8], mut answer: F) -> io::Result<()>
where
    R: Print,
    F: FnMut(&[u8]) -> Result<(), CaseError>,
    requires { F.IsAlwaysCallable answer }
{
    for line in input.split(|b| *b == b'\n') {
        match line {
            [] => {}
            [b'#', ..] => {
                rt.write_all(line)?;
                rt.write_all(b"\n")?;
            }
            _ => match answer(line) {
                Ok(()) => {}
                Err(CaseError::Bad) => println!(rt; "bad case")?,
                Err(CaseError::Io(error)) => return Err(error),
            },
        }
    }
    Ok(())
}

// The line end from `at` on, or the end of the input.
pub fn line_end(input: &[u8], at: usize) -> usize
    requires { at ≤ length input.now }
    ensures { (at ≤ result) × (result ≤ length input.now) }
{
    let line = input[at..].iter().position(|b| *b == b'\n');
    line.map_or(input.len(), |n| at + n)
}
