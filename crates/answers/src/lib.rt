// The answer of reading, respacing and parsing, and the faults for which a text is refused.
#![tactic(auto)]

ghost use Rattle.std.specs.Prelude.{◌≡◌};
ghost use Rattle.answers.specs.Answers.{number_of, value_of};

pub mod faults;

// What a call answers: accepted with its count, or refused with the number of document 01's table and a place.
// An enum of its own and no `Result`: the rules ask by name for one enum for every call.
#[derive(Clone, Copy)]
pub enum Answer {
    Accepted(usize),
    Refused(u32, usize),
}

impl Answer {
    // The number of the table's row; 0 where the answer is accepted, as `number_of` has it.
    pub fn number(self) -> u32
        ensures { result ≡ number_of self }
    {
        match self {
            Answer::Accepted(_) => 0,
            Answer::Refused(number, _) => number,
        }
    }

    // The count where the answer is accepted, else the place.
    pub fn value(self) -> usize
        ensures { result ≡ value_of self }
    {
        match self {
            Answer::Accepted(count) => count,
            Answer::Refused(_, place) => place,
        }
    }
}
