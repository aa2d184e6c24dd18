// Prints the tree records of the text on standard input, of at most 8,192 bytes and 3,000 records, or its first fault.
#![tactic(auto)]

// `trees` and the other programs differ in their arrays: one function for all would take a closure over arrays of a const length,
// which the borrow checker does not cover.
fn main(rt: HostRuntime) {
    let mut input = [0u8; listing::SHORT_INPUT];
    let Some(count) = streams::read_input(&rt, &mut input) else {
        return;
    };
    let mut trees = [0u32; listing::SHORT_TREES];
    let mut output = [0u8; listing::SHORT_OUTPUT];
    let written = listing::list_short(&input, count, &mut trees, &mut output);
    streams::write_output(&rt, &output[..written]);
}
