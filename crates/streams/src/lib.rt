// Standard input and standard output of the programs. Where one cannot be read or written, a line on standard error says so.
#![tactic(auto)]

ghost use Rattle.streams.specs.Streams.{InBuffer};
ghost use Rattle.std.specs.Prelude.{◌≤◌, length, IfOk};

use std::io;
use std::io::Read;

// Reads standard input to the start of a buffer, until the input ends or the buffer is full: how many bytes were read, unless
// they could not be.
pub fn read_input<R: io::Input + Eprint>(rt: &R, buffer: &mut [u8]) -> Option<usize>
    ensures { InBuffer buffer.new result }
{
    match fill(&mut rt.reader(), buffer) {
        Ok(count) => Some(count),
        Err(error) => {
            fail(rt, "standard input", &error);
            None
        }
    }
}

// How many bytes were read to the start of a buffer.
fn fill<R: Read>(reader: &mut R, buffer: &mut [u8]) -> io::Result<usize>
    ensures { IfOk result (λ n. n ≤ length buffer.new) }
{
    let mut done = 0;
    // The place goes by what was read, so that no range counts it.
    while done < buffer.len() {
        let more = reader.read(&mut buffer[done..])?;
        if more == 0 {
            break;
        }
        done += more;
    }
    Ok(done)
}

// Writes bytes to standard output.
pub fn write_output<R: Print + Eprint>(rt: &R, bytes: &[u8]) {
    if let Err(error) = rt.write_all(bytes) {
        fail(rt, "standard output", &error);
    }
}

// Says on standard error what failed, and why.
fn fail<R: Eprint>(rt: &R, what: &str, error: &io::Error) {
    let _ = eprintln!(rt; "{what}: {error}");
}
