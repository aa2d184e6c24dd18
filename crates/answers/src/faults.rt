// The faults for which a text is refused, and the numbers that document 01's table of refused texts gives them.
ghost use Rattle.std.specs.Prelude.{◌≡◌};
ghost use Rattle.answers.specs.Faults.{fault_number, fault_place, refusal};

use crate::Answer;

// A row of the table, with its place: a byte of the text, or what else the row names.
#[derive(Clone, Copy)]
pub enum Fault {
    Long(usize),
    Stray(usize),
    OpenString(usize),
    OpenPattern(usize),
    OpenComment(usize),
    BadNumber(usize),
    BarredWord(usize),
    Deep(usize),
    WrongCloser(usize),
    Unclosed(usize),
    TreesFull(usize),
    NoProgram(usize),
    SyntaxFull(usize),
    OutputFull(usize),
}

impl Fault {
    // The row's number. There is no row 8 any more.
    pub fn number(self) -> u32
        ensures { result ≡ fault_number self }
    {
        match self {
            Fault::Long(_) => 1,
            Fault::Stray(_) => 2,
            Fault::OpenString(_) => 3,
            Fault::OpenPattern(_) => 4,
            Fault::OpenComment(_) => 5,
            Fault::BadNumber(_) => 6,
            Fault::BarredWord(_) => 7,
            Fault::Deep(_) => 9,
            Fault::WrongCloser(_) => 10,
            Fault::Unclosed(_) => 11,
            Fault::TreesFull(_) => 12,
            Fault::NoProgram(_) => 13,
            Fault::SyntaxFull(_) => 14,
            Fault::OutputFull(_) => 15,
        }
    }

    // The row's place.
    pub fn place(self) -> usize
        ensures { result ≡ fault_place self }
    {
        match self {
            Fault::Long(at)
            | Fault::Stray(at)
            | Fault::OpenString(at)
            | Fault::OpenPattern(at)
            | Fault::OpenComment(at)
            | Fault::BadNumber(at)
            | Fault::BarredWord(at)
            | Fault::Deep(at)
            | Fault::WrongCloser(at)
            | Fault::Unclosed(at)
            | Fault::TreesFull(at)
            | Fault::NoProgram(at)
            | Fault::SyntaxFull(at)
            | Fault::OutputFull(at) => at,
        }
    }
}

impl From<Fault> for Answer {
    ghost from_gives = { λ fault answer. answer ≡ refusal fault };

    fn from(fault: Fault) -> Answer {
        Answer::Refused(fault.number(), fault.place())
    }
}
