// What `respace` prints of the text on standard input: the whole of it, where the output has room for every respaced text.
#![tactic(auto)]

ghost use Rattle.listing.specs.Listing.{Counts};
ghost use Rattle.respaced_listing.specs.RespacedListing.{ListsRespaced};

use answers::Answer;
use listing::INPUT;

// A respaced text has at most twice the bytes of its text, and one.
pub const RESPACED_OUTPUT: usize = 2 * reader::MOST_BYTES + 1;

// What `respace` prints. Arrays, whose sizes the contract has from their types (see `listing::list_short`).
pub fn list_respaced(input: &[u8; INPUT], count: usize, output: &mut [u8; RESPACED_OUTPUT]) -> usize
    ensures counts { Counts result output.new }
    ensures lists_respaced { ListsRespaced input.now count output.old output.new result }
{
    let answer = respacer::respace(listing::front(input, count), output);
    match answer {
        Answer::Accepted(written) => written,
        Answer::Refused(number, place) => printing::put_refused(output, number, place),
    }
}
