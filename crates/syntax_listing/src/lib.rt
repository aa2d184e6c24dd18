// What `syntax` prints of the text on standard input: the whole of it, where the output has room for every listing.
#![tactic(auto)]

ghost use Rattle.listing.specs.Listing.{Counts};
ghost use Rattle.syntax_listing.specs.SyntaxListing.{ListsSyntax};

use listing::{INPUT, TREES};
use tables::SyntaxRecord;

pub const SYNTAX: usize = SyntaxRecord::MOST * SyntaxRecord::WIDTH;

// A cell has at most 10 digits and a byte behind them.
pub const SYNTAX_OUTPUT: usize = 11 * SYNTAX + 40;

// What `syntax` prints. Arrays, whose sizes the contract has from their types (see `listing::list_short`).
pub fn list_syntax(
    input: &[u8; INPUT],
    count: usize,
    trees: &mut [u32; TREES],
    syntax: &mut [u32; SYNTAX],
    output: &mut [u8; SYNTAX_OUTPUT],
) -> usize
    ensures counts { Counts result output.new }
    ensures lists_syntax { ListsSyntax input.now count trees.old trees.new syntax.old syntax.new
        output.old output.new result }
{
    let answer = parser::parse(listing::front(input, count), trees, syntax);
    printing::put_answer(output, b"syntax,", syntax, SyntaxRecord::WIDTH, answer)
}
