// Reading: a text to tree records. `read` and `respace` of `respacer` have one shape and say different things.
// `as` from `u32` to `usize` and back: std has no `From` there, and the check proves that nothing is lost.
#![tactic(auto)]

ghost use Rattle.std.specs.Prelude.{◌≡◌, List, ℕ, ◌≤◌, length};
ghost use Rattle.rule.specs.Levels.{Levels};
ghost use Rattle.prefix.specs.Reading;
ghost use Rattle.storing.specs.Machinery.Table.{Holds, Some};
ghost use Rattle.answers.specs.Faults.{answered};
ghost use Rattle.reading.specs.Read.{most_bytes, reading_for, answer_of, Reads};
ghost use Rattle.reader.specs.Machinery.Filled.{Filled};

use answers::Answer;
use answers::faults::Fault;
use prefix::{OpenGroup, State};
use tables::TreeRecord;
use text::Codes;
pub use turns::MOST_BYTES;
use turns::MOST_GROUPS;

// The count of records where no element is left and no group is open; else the innermost opener's record has its place.
fn ending(trees: &[u32], stack: &[OpenGroup], state: State) -> Result<usize, Fault>
    requires { (room : ℕ) × Some trees.now stack.now room state }
    ensures { (before : List ℕ) (room : ℕ) (levels : Levels) → Holds before trees.now stack.now room state levels → answered result ≡ answer_of (Reading.ending levels) }
{
    if state.depth == 0 {
        return Ok(state.records);
    }
    let index = stack[state.depth - 1].tag as usize;
    let first = trees[TreeRecord::WIDTH * index + 1] as usize;
    Err(Fault::Unclosed(first))
}

// The reading, with what was written left in the table where it is refused. Room for 100 groups is asked of the stack's length, since the loop is lent a slice.
fn fill(
    codes: &Codes,
    text: &[u8],
    trees: &mut [u32],
    stack: &mut [OpenGroup],
) -> Result<usize, Fault>
    requires { (length text.now ≤ most_bytes) × (length stack.old ≡ 100) }
    ensures { (answered result ≡ answer_of (reading_for text.now (length trees.old))) × Filled (reading_for text.now (length trees.old)) trees.old trees.new }
{
    let room = tables::room_for::<TreeRecord>(trees.len());
    let mut none = [0u8; 0];
    let reached = turns::read_on(codes, text, trees, &mut none, stack, room, false)?;
    ending(trees, stack, reached.state)
}

// Reads a text: the count of its tree records, which the table then starts with; or the number and place of its first fault,
// with every cell of the table 0.
pub fn read(text: &[u8], trees: &mut [u32]) -> Answer
    ensures { Reads text.now trees.old trees.new result }
{
    // Before stack and table of codes are made, since this needs neither.
    if MOST_BYTES < text.len() {
        tables::clear(trees);
        return Answer::from(Fault::Long(MOST_BYTES));
    }
    let mut stack = [OpenGroup::NONE; MOST_GROUPS];
    let codes = Codes::new();
    match fill(&codes, text, trees, &mut stack) {
        Ok(count) => Answer::Accepted(count),
        Err(fault) => {
            tables::clear(trees);
            fault.into()
        }
    }
}
