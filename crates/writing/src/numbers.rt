// Numbers in decimal, and lines of them.
// `as` from `u32` to `usize` and back: std has no `From` there, and the check proves that nothing is lost.
ghost use Rattle.std.specs.Prelude.{◌≡◌, [], ◌∷◌, ◌++◌};
ghost use Rattle.writing.specs.Numbers.{decimal, line};
ghost use Rattle.writing.specs.Machinery.Writing.{Adds};

use crate::Writer;

impl Writer<'_> {
    // Writes a number: the digits before its last are those of a tenth of it. std's `write!` would say what it wrote where it answers `Ok`, and not
    // that it does, though this writer refuses nothing: it was tried, and no proof that the digits are there closes.
    fn put_decimal(&mut self, number: usize)
        ensures same_output { self.new.output.ghost_name ≡ self.old.output.ghost_name }
        ensures adds { Adds self.old.output.now self.old.at (decimal number) self.new.output.now self.new.at }
    {
        if 10 <= number {
            self.put_decimal(number / 10);
        }
        self.put_byte(b'0' + (number % 10) as u8);
    }

    // Writes a number, and a byte behind it.
    pub fn put_number(&mut self, number: usize, after: u8)
        ensures same_output { self.new.output.ghost_name ≡ self.old.output.ghost_name }
        ensures adds { Adds self.old.output.now self.old.at (decimal number ++ (after ∷ [])) self.new.output.now self.new.at }
    {
        self.put_decimal(number);
        self.put_byte(after);
    }

    // Writes numbers in a line: a comma stands behind each that others follow, and the line's end behind the last.
    pub fn put_line(&mut self, numbers: &[u32])
        ensures same_output { self.new.output.ghost_name ≡ self.old.output.ghost_name }
        ensures adds { Adds self.old.output.now self.old.at (line numbers.now) self.new.output.now self.new.at }
    {
        if let Some((last, others)) = numbers.split_last() {
            for number in others {
                self.put_number(*number as usize, b',');
            }
            self.put_number(*last as usize, b'\n');
        }
    }
}
