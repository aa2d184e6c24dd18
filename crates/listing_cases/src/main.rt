// Prints what `listing` makes of the texts that standard input gives, one case to a line, for comparison with the stored answers: a
// letter, a blank, and the text, as `spelling.rt` of `cases` says. `l` is what `treelist` prints, `t` trees, `s` syntax and `r` the
// respaced text; `case_answers` says what is shown of it.
#![tactic(auto)]

mod lists;

use cases::{CaseError, spelling};
use std::io;

fn main(rt: HostRuntime) -> io::Result<()> {
    cases::answer_all(&rt, |line| answer(&rt, line))
}

fn answer<R: Print + AllocGlobal>(rt: &R, line: &[u8]) -> Result<(), CaseError> {
    let (letter, rest) = line.split_first().ok_or(CaseError::Bad)?;
    let spelled = rest.get(1..).unwrap_or(&[]);
    let text = spelling::text_of(rt.alloc(), spelled)?;
    // Four letters, four functions: a table of them would be made and handed out.
    match letter {
        b'l' => lists::short(rt, &text)?,
        b't' => lists::trees(rt, &text)?,
        b's' => lists::syntax(rt, &text)?,
        b'r' => lists::respaced(rt, &text)?,
        _ => return Err(CaseError::Bad),
    }
    Ok(())
}
