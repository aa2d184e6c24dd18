// Prints the syntax records of the text on standard input, or its first fault.
#![tactic(auto)]

fn main(rt: HostRuntime) {
    let mut input = [0u8; listing::INPUT];
    let Some(count) = streams::read_input(&rt, &mut input) else {
        return;
    };
    let mut trees = [0u32; listing::TREES];
    let mut syntax = [0u32; syntax_listing::SYNTAX];
    let mut output = [0u8; syntax_listing::SYNTAX_OUTPUT];
    let written = syntax_listing::list_syntax(&input, count, &mut trees, &mut syntax, &mut output);
    streams::write_output(&rt, &output[..written]);
}
