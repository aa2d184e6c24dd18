// Prints the text on standard input with one blank or line end between its elements, or its first fault.
#![tactic(auto)]

fn main(rt: HostRuntime) {
    let mut input = [0u8; listing::INPUT];
    let Some(count) = streams::read_input(&rt, &mut input) else {
        return;
    };
    let mut output = [0u8; respaced_listing::RESPACED_OUTPUT];
    let written = respaced_listing::list_respaced(&input, count, &mut output);
    streams::write_output(&rt, &output[..written]);
}
