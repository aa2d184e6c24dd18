// The parser: a text to syntax records.
#![tactic(auto)]

ghost use Rattle.parsing.specs.Parse.{Parses};

mod programs;

use answers::Answer;
use tables::TreeRecord;

// Parses a text: the count of its syntax records, which the syntax table then starts with, as the tree table starts with its tree
// records; or the number and place of its first fault, with every cell of both tables 0.
pub fn parse(text: &[u8], trees: &mut [u32], syntax: &mut [u32]) -> Answer
    ensures { Parses text.now trees.old syntax.old trees.new syntax.new result }
{
    let read = reader::read(text, trees);
    let Answer::Accepted(count) = read else {
        tables::clear(syntax);
        return read;
    };
    match programs::program_of(text, &trees[..TreeRecord::WIDTH * count], syntax) {
        Ok(n) => Answer::Accepted(n),
        Err(fault) => {
            tables::clear(trees);
            tables::clear(syntax);
            Answer::from(fault)
        }
    }
}
