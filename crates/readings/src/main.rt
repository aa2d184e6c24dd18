// Prints how `reader::read` reads, `respacer::respace` respaces and `parser::parse` parses the texts that standard input gives, one
// case to a line, for comparison with the stored answers. `case.rt`, and `spelling.rt` of `cases`, say what a line holds,
// `case_answers` what is printed.
#![tactic(auto)]

mod case;

use answers::Answer;
use case::{Call, Case};
use case_answers::{accepted, parsed, refused, respaced};
use case_tables::{BYTES, CELLS, SYNTAX_CELLS, all_zero, kept, mark_all};
use cases::CaseError;
use std::io;

fn main(rt: HostRuntime) -> io::Result<()> {
    let mut trees = [0u32; CELLS];
    let mut syntax = [0u32; SYNTAX_CELLS];
    cases::answer_all(&rt, |line| { answer(&rt, line, &mut trees, &mut syntax) })
}

fn answer<R: Print + AllocGlobal>(
    rt: &R,
    line: &[u8],
    trees: &mut [u32],
    syntax: &mut [u32],
) -> Result<(), CaseError> {
    let (Case { call, lent }, text) = case::case_of(rt.alloc(), line)?;
    match call {
        Call::Read => read(rt, &text, first(trees, lent)?)?,
        Call::Respace => respace(rt, &text, lent)?,
        Call::Parse => parse(rt, &text, trees, first(syntax, lent)?)?,
    }
    Ok(())
}

// So many cells as are lent.
fn first<T>(cells: &mut [T], lent: usize) -> Result<&mut [T], CaseError> {
    cells.get_mut(..lent).ok_or(CaseError::Bad)
}

fn read(rt: &impl Print, text: &[u8], trees: &mut [u32]) -> io::Result<()> {
    mark_all(trees);
    match reader::read(text, trees) {
        Answer::Accepted(count) => accepted(rt, trees, count),
        Answer::Refused(number, place) => refused(rt, number, place, all_zero(trees)),
    }
}

// The output is the first `lent` bytes of an array.
fn respace(rt: &impl Print, text: &[u8], lent: usize) -> Result<(), CaseError> {
    let mut array = [0u8; BYTES];
    mark_all(&mut array);
    let output = first(&mut array, lent)?;
    match respacer::respace(text, output) {
        Answer::Accepted(count) => respaced(rt, &array, count)?,
        Answer::Refused(number, place) => {
            let zero = all_zero(output) && kept(&array, lent);
            refused(rt, number, place, zero)?
        }
    }
    Ok(())
}

fn parse(rt: &impl Print, text: &[u8], trees: &mut [u32], syntax: &mut [u32]) -> io::Result<()> {
    mark_all(trees);
    mark_all(syntax);
    match parser::parse(text, trees, syntax) {
        Answer::Accepted(count) => parsed(rt, trees, syntax, count),
        Answer::Refused(number, place) => {
            let zero = all_zero(trees) && all_zero(syntax);
            refused(rt, number, place, zero)
        }
    }
}
