// Bytes of a text, by their codes.
#![tactic(auto)]

ghost use Rattle.std.specs.Prelude.{◌≡◌};
ghost use Rattle.text.specs.Machinery.Codes.{code_of, byte_codes};

// The codes; 3 is that of any other legal byte. Those over LINE_END are legal inside a comment or a literal, those over TURNING go on
// with it in any case, those over BLANK are of name bytes, and those over LETTER of digits. Numbers, and no enum: the scanners ask by one
// comparison for all codes over one, and the table below shows each byte's by a digit, where it would show 256 names.
pub const ILLEGAL: u8 = 0;

pub const LINE_END: u8 = 1;

pub const TURNING: u8 = 2;

pub const BLANK: u8 = 4;

pub const LETTER: u8 = 5;

pub const DIGIT: u8 = 6;

// The table of codes, one for each byte. A call makes it once and lends it to all that scans: a table that stands where it is indexed is
// copied each time.
// It is lent beside the text and not in one struct with it: the clauses of the scanners speak of the text, which would be a field there.
#[derive(Drop)]
pub struct Codes {
    table: [u8; 256],
    ghost by_byte: { table ≡ byte_codes },
}

impl Codes {
    #[rattlefmt::skip]
    pub fn new() -> Codes {
        let table = [
            0, 0, 0, 0, 0, 0, 0, 0, 0, 4, 1, 4, 4, 1, 0, 0,
            0, 0, 0, 0, 0, 0, 0, 0, 0, 0, 0, 0, 0, 0, 0, 0,
            4, 3, 2, 3, 5, 3, 3, 2, 3, 3, 2, 3, 3, 3, 3, 2,
            6, 6, 6, 6, 6, 6, 6, 6, 6, 6, 3, 3, 3, 3, 3, 3,
            3, 5, 5, 5, 5, 5, 5, 5, 5, 5, 5, 5, 5, 5, 5, 5,
            5, 5, 5, 5, 5, 5, 5, 5, 5, 5, 5, 2, 2, 2, 3, 5,
            3, 5, 5, 5, 5, 5, 5, 5, 5, 5, 5, 5, 5, 5, 5, 5,
            5, 5, 5, 5, 5, 5, 5, 5, 5, 5, 5, 3, 3, 3, 3, 0,
            0, 0, 0, 0, 0, 0, 0, 0, 0, 0, 0, 0, 0, 0, 0, 0,
            0, 0, 0, 0, 0, 0, 0, 0, 0, 0, 0, 0, 0, 0, 0, 0,
            0, 0, 0, 0, 0, 0, 0, 0, 0, 0, 0, 0, 0, 0, 0, 0,
            0, 0, 0, 0, 0, 0, 0, 0, 0, 0, 0, 0, 0, 0, 0, 0,
            0, 0, 0, 0, 0, 0, 0, 0, 0, 0, 0, 0, 0, 0, 0, 0,
            0, 0, 0, 0, 0, 0, 0, 0, 0, 0, 0, 0, 0, 0, 0, 0,
            0, 0, 0, 0, 0, 0, 0, 0, 0, 0, 0, 0, 0, 0, 0, 0,
            0, 0, 0, 0, 0, 0, 0, 0, 0, 0, 0, 0, 0, 0, 0, 0,
        ];
        Codes { table }
    }

    // The code of a byte, by the table.
    pub fn of(&self, b: u8) -> u8
        ensures { result ≡ code_of b }
    {
        self.table[usize::from(b)]
    }
}
