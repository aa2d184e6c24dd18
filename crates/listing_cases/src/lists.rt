// Each case has buffers and tables of its own, as the programs have. One function for all would take a closure over arrays of a
// const length, which the borrow checker does not cover.
use case_answers::print_listing;
use listing::{INPUT, SHORT_INPUT};
use std::io;

pub fn short(rt: &impl Print, text: &[u8]) -> io::Result<()> {
    let mut input = [0u8; SHORT_INPUT];
    let count = fill(&mut input, text);
    let mut trees = [0u32; listing::SHORT_TREES];
    let mut output = [0u8; listing::SHORT_OUTPUT];
    let written = listing::list_short(&input, count, &mut trees, &mut output);
    print_listing(rt, &output[..written])
}

pub fn trees(rt: &impl Print, text: &[u8]) -> io::Result<()> {
    let mut input = [0u8; INPUT];
    let count = fill(&mut input, text);
    let mut trees = [0u32; listing::TREES];
    let mut output = [0u8; listing::TREES_OUTPUT];
    let written = listing::list_trees(&input, count, &mut trees, &mut output);
    print_listing(rt, &output[..written])
}

pub fn syntax(rt: &impl Print, text: &[u8]) -> io::Result<()> {
    let mut input = [0u8; INPUT];
    let count = fill(&mut input, text);
    let mut trees = [0u32; listing::TREES];
    let mut syntax = [0u32; syntax_listing::SYNTAX];
    let mut output = [0u8; syntax_listing::SYNTAX_OUTPUT];
    let written = syntax_listing::list_syntax(&input, count, &mut trees, &mut syntax, &mut output);
    print_listing(rt, &output[..written])
}

pub fn respaced(rt: &impl Print, text: &[u8]) -> io::Result<()> {
    let mut input = [0u8; INPUT];
    let count = fill(&mut input, text);
    let mut output = [0u8; respaced_listing::RESPACED_OUTPUT];
    let written = respaced_listing::list_respaced(&input, count, &mut output);
    print_listing(rt, &output[..written])
}

// The front of the text, as a read of it would fill the buffer.
fn fill(input: &mut [u8], text: &[u8]) -> usize {
    let count = text.len().min(input.len());
    input[..count].copy_from_slice(&text[..count]);
    count
}
