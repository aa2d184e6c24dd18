// The three calls, as README.md shows them.
#![tactic(auto)]

use answers::Answer;
use std::io;
use tables::{SyntaxRecord, TreeRecord};

fn main(rt: HostRuntime) -> io::Result<()> {
    read(&rt, b"a = {b: /)/} / c;")?;
    parse(&rt, b"a = {b: /)/} / c;")?;
    let mut output = [0u8; 64];
    respace(&rt, b"a={b:/)/}/c;", &mut output)
}

fn read(rt: &impl Print, text: &[u8]) -> io::Result<()> {
    let mut trees = [0u32; 9 * TreeRecord::WIDTH];
    let answer = reader::read(text, &mut trees);
    match answer {
        // 9 records; cells past the last are as they were.
        Answer::Accepted(count) => number(rt, count),
        // Every cell of the table is 0.
        Answer::Refused(_, place) => number(rt, place),
    }
}

fn parse(rt: &impl Print, text: &[u8]) -> io::Result<()> {
    let mut trees = [0u32; 9 * TreeRecord::WIDTH];
    let mut syntax = [0u32; 8 * SyntaxRecord::WIDTH];
    let answer = parser::parse(text, &mut trees, &mut syntax);
    match answer {
        // 8 syntax records; the trees are those of `read`.
        Answer::Accepted(count) => number(rt, count),
        // Every cell of both tables is 0.
        Answer::Refused(_, place) => number(rt, place),
    }
}

fn respace(rt: &impl Print, text: &[u8], output: &mut [u8]) -> io::Result<()> {
    let answer = respacer::respace(text, output);
    match answer {
        // 22 bytes, `a = { b : /)/ } / c ;` and a line end; those past the last are as they were.
        Answer::Accepted(count) => bytes(rt, &output[..count]),
        // Every byte of the output is 0.
        Answer::Refused(_, place) => number(rt, place),
    }
}

fn number(rt: &impl Print, n: usize) -> io::Result<()> {
    println!(rt; "{n}")
}

fn bytes(rt: &impl Print, b: &[u8]) -> io::Result<()> {
    rt.write_all(b)
}
