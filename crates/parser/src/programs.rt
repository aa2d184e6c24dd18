// The program of a text's tree records.
ghost use Rattle.std.specs.Prelude.{length, ◌+◌, ◌≤◌};
ghost use Rattle.tables.specs.Records.{most_trees};
ghost use Rattle.segments.specs.Machinery.Segments.{Fine, segment, segment_of, count_of};
ghost use Rattle.parser.specs.Machinery.Judged.{Judged};

use answers::faults::Fault;
use controls::{Setting, records};
use machine::tokens;
use segments::Segment;
use tables::{SyntaxRecord, TreeRecord};
use waiting::Waiting;

// The program of a part, with what was written left in the table where it is refused: how many syntax records it has. Each tree record
// lets one part wait at most.
fn program(part: Segment, waiting: &mut [Waiting], syntax: &mut [u32]) -> Result<usize, Fault>
    requires { Fine (segment_of part) × (part.base + count_of part.trees.now ≤ length waiting.old) }
    ensures { Judged (segment_of part.entry) syntax.old result syntax.new }
{
    let number = part.count();
    let body = levels::statements(
        part,
        tokens::END_OF_TEXT,
        Setting::Body,
        waiting,
        0,
        syntax,
        0,
    )?;
    let all = records::put(syntax, body.count, records::PROGRAM, number, 0);
    if tables::room_for::<SyntaxRecord>(syntax.len()) < all {
        return Err(Fault::SyntaxFull(part.close));
    }
    Ok(all)
}

// The same with a stack for so many parts. It is no part of its caller, whose own stack would be the longest of all.
#[inline(never)]
fn program_with<const PARTS: usize>(part: Segment, syntax: &mut [u32]) -> Result<usize, Fault>
    requires { Fine (segment_of part) × (part.base + count_of part.trees.now ≤ PARTS) × (PARTS ≤ most_trees) }
    ensures { Judged (segment_of part.entry) syntax.old result syntax.new }
{
    let none = Waiting {
        kind: 0,
        mark: 0,
        start: 0,
    };
    let mut waiting = [none; PARTS];
    program(part, &mut waiting, syntax)
}

// For up to so many records a short stack is made, since a long one takes more time than they do.
const FEW: usize = 128;

pub fn program_of(text: &[u8], trees: &[u32], syntax: &mut [u32]) -> Result<usize, Fault>
    requires { Fine (segment text.now trees.now 0 (length text.now)) }
    ensures { Judged (segment text.now trees.now 0 (length text.now)) syntax.old result syntax.new }
{
    let whole = Segment {
        text,
        trees,
        base: 0,
        close: text.len(),
    };
    if whole.count() <= FEW {
        return program_with::<FEW>(whole, syntax);
    }
    program_with::<{ TreeRecord::MOST }>(whole, syntax)
}
