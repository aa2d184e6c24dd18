// Bytes and numbers written to an output from a place on, as far as it has room.
#![tactic(auto)]

ghost use Rattle.std.specs.Prelude.{◌≡◌, [], ◌∷◌};
ghost use Rattle.writing.specs.Machinery.Writing.{Adds};

pub mod numbers;

// An output that is lent, and the place that is written next.
#[derive(Drop)]
pub struct Writer<'a> {
    output: &'a mut [u8],
    at: usize,
}

impl<'a> Writer<'a> {
    pub fn new(output: &'a mut [u8]) -> Writer<'a>
        ensures same_output { result.output.ghost_name ≡ output.entry.ghost_name }
        ensures untouched { result.output.now ≡ output.old }
        ensures at_start { result.at ≡ 0 }
    {
        Writer { output, at: 0 }
    }

    // Goes on from a place; past the end nothing is written.
    pub fn behind(output: &'a mut [u8], at: usize) -> Writer<'a>
        ensures same_output { result.output.ghost_name ≡ output.entry.ghost_name }
        ensures untouched { result.output.now ≡ output.old }
        ensures at_place { result.at ≡ at }
    {
        Writer { output, at }
    }

    // The place that is written next: for a writer from 0 on, how many bytes were written.
    pub fn count(&self) -> usize
        ensures { result ≡ self.now.at }
    {
        self.at
    }

    // Writes a byte if there is room.
    pub fn put_byte(&mut self, byte: u8)
        ensures same_output { self.new.output.ghost_name ≡ self.old.output.ghost_name }
        ensures adds { Adds self.old.output.now self.old.at (byte ∷ []) self.new.output.now self.new.at }
    {
        if self.at < self.output.len() {
            self.output[self.at] = byte;
            self.at += 1;
        }
    }

    pub fn put_bytes(&mut self, bytes: &[u8])
        ensures same_output { self.new.output.ghost_name ≡ self.old.output.ghost_name }
        ensures adds { Adds self.old.output.now self.old.at bytes.now self.new.output.now self.new.at }
    {
        for &byte in bytes {
            self.put_byte(byte);
        }
    }
}
