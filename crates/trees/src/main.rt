// Prints the tree records of the text on standard input, or its first fault.
#![tactic(auto)]

fn main(rt: HostRuntime) {
    let mut input = [0u8; listing::INPUT];
    let Some(count) = streams::read_input(&rt, &mut input) else {
        return;
    };
    let mut trees = [0u32; listing::TREES];
    let mut output = [0u8; listing::TREES_OUTPUT];
    let written = listing::list_trees(&input, count, &mut trees, &mut output);
    streams::write_output(&rt, &output[..written]);
}
