// Respacing: a text to the same elements with one blank or line end between them.
// `as` from `u32` to `usize` and back: std has no `From` there, and the check proves that nothing is lost.
#![tactic(auto)]

ghost use Rattle.std.specs.Prelude.{◌≡◌, List, ℕ, ◌*◌, ◌≤◌, length};
ghost use Rattle.respacer.specs.Respace.{whole_reading, Respaces};
ghost use Rattle.rule.specs.Levels.{Levels};
ghost use Rattle.prefix.specs.Reading.{ending};
ghost use Rattle.reading.specs.Read.{most_bytes};
ghost use Rattle.spacing.specs.Machinery.Written.{Writes};
ghost use Rattle.respacer.specs.Machinery.Told.{Told, Fits};

use answers::Answer;
use answers::faults::Fault;
use prefix::OpenGroup;
use tables::TreeRecord;
use text::Codes;
use turns::{MOST_GROUPS, Reached};

// The end of the text: the last line end; or the place of the innermost opener.
fn write_end(output: &mut [u8], stack: &[OpenGroup], reached: Reached) -> Result<usize, Fault>
    requires { (reached.written ≤ 2 * most_bytes) × (reached.state.depth ≤ length stack.now) }
    ensures { (bytes old : List ℕ) (place : ℕ) (levels : Levels) → Writes bytes old output.old stack.now reached.state reached.written place levels → Told bytes old output.new (ending levels) result }
{
    let depth = reached.state.depth;
    if depth == 0 {
        return Ok(spacing::put_byte(output, reached.written, b'\n'));
    }
    Err(Fault::Unclosed(stack[depth - 1].tag as usize))
}

// The elements of the whole text, as many as fit; and the count of all bytes, those that do not fit too. Room for 100 groups is asked of the stack's length, since the loop is
// lent a slice.
fn write_text(
    codes: &Codes,
    text: &[u8],
    output: &mut [u8],
    stack: &mut [OpenGroup],
) -> Result<usize, Fault>
    requires { (length text.now ≤ most_bytes) × (length stack.old ≡ 100) }
    ensures { Told text.now output.old output.new (whole_reading text.now) result }
{
    let mut none = [0u32; 0];
    let reached = turns::read_on(
        codes,
        text,
        &mut none,
        output,
        stack,
        TreeRecord::MOST,
        true,
    )?;
    write_end(output, stack, reached)
}

// The same, refused where not all bytes fit.
fn write_fitting(
    codes: &Codes,
    text: &[u8],
    output: &mut [u8],
    stack: &mut [OpenGroup],
) -> Result<usize, Fault>
    requires { (length text.now ≤ most_bytes) × (length stack.old ≡ 100) }
    ensures { Fits text.now output.old output.new result }
{
    let count = write_text(codes, text, output, stack)?;
    if output.len() < count {
        return Err(Fault::OutputFull(text.len()));
    }
    Ok(count)
}

// Respaces a text: the count of bytes written to the output, whose bytes past these are as they were; or the number and place
// of a refusal, with every byte of the output 0.
pub fn respace(text: &[u8], output: &mut [u8]) -> Answer
    ensures { Respaces text.now output.old output.new result }
{
    // Before stack and table of codes are made, since this needs neither.
    if turns::MOST_BYTES < text.len() {
        spacing::clear(output);
        return Answer::from(Fault::Long(turns::MOST_BYTES));
    }
    let mut stack = [OpenGroup::NONE; MOST_GROUPS];
    let codes = Codes::new();
    match write_fitting(&codes, text, output, &mut stack) {
        Ok(count) => Answer::Accepted(count),
        Err(fault) => {
            spacing::clear(output);
            fault.into()
        }
    }
}
