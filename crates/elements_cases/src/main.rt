// Prints how a walk cuts the texts that standard input gives, one case to a line, for comparison with the stored answers.
// `case.rt` says what a line holds, `texts.rt` what is printed.
#![tactic(auto)]

mod case;
mod texts;

use case::{Case, Shown};
use cases::CaseError;
use std::io;

fn main(rt: HostRuntime) -> io::Result<()> {
    cases::answer_all(&rt, |line| answer(&rt, line))
}

fn answer<R: Print + AllocGlobal>(rt: &R, line: &[u8]) -> Result<(), CaseError> {
    let (Case { shown, stated }, text) = case::case_of(rt.alloc(), line)?;
    match shown {
        Shown::Elements => texts::line(rt, &text, stated, false)?,
        Shown::Parts => texts::line(rt, &text, stated, true)?,
        // Every prefix of the text, so that a text ends anywhere.
        Shown::Prefixes => {
            for n in 0..=text.len() {
                texts::line(rt, &text[..n], stated, false)?;
            }
        }
    }
    Ok(())
}
