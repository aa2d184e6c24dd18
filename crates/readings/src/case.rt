// The cases, one to a line: the number of cells that the table has, a blank, and the text up to the line end. Where the text is
// to be respaced, `>` stands first, and the number is of the bytes that the output has. Where it is to be parsed, `p` stands first,
// and the number is of the cells that the syntax table has; the tree table has all of `case_tables::CELLS`.
use cases::{CaseError, number, spelling};
use std::alloc::Global;

#[derive(Clone, Copy)]
pub enum Call {
    Read,
    Respace,
    Parse,
}

// The call, and how much of the table or the output is lent to it.
#[derive(Clone, Copy)]
pub struct Case {
    pub call: Call,
    pub lent: usize,
}

// The case of a line, and its text.
pub fn case_of(alloc: Global, line: &[u8]) -> Result<(Case, Vec<u8>), CaseError> {
    let (call, line) = match line {
        [b'>', rest @ ..] => (Call::Respace, rest),
        [b'p', rest @ ..] => (Call::Parse, rest),
        _ => (Call::Read, line),
    };
    let (lent, spelled) = number::number_at(line).ok_or(CaseError::Bad)?;
    let text = spelling::text_of(alloc, spelled)?;
    Ok((Case { call, lent }, text))
}
