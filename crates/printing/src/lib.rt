// Records and refusals as text, written to a lent output.
// `as` from `u32` to `usize` and back: std has no `From` there, and the check proves that nothing is lost.
#![tactic(auto)]

ghost use Rattle.std.specs.Prelude.{◌≡◌, ◌+◌, ◌*◌, ◌≤◌, length};
ghost use Rattle.printing.specs.Printed.{lines, listed, refusal, answered, FitsTable, listing_room};
ghost use Rattle.writing.specs.Machinery.Writing.{Adds, Written};

use answers::Answer;
use writing::Writer;

// Writes the first records of a table, one a line. The width may be 0, which `chunks_exact` does not take.
fn put_lines(to: &mut Writer, table: &[u32], width: usize, count: usize)
    requires { width * count ≤ length table.now }
    ensures same_output { to.new.output.ghost_name ≡ to.old.output.ghost_name }
    ensures adds { Adds to.old.output.now to.old.at (lines width count table.now) to.new.output.now to.new.at }
{
    for i in 0..count {
        let first = width * i;
        to.put_line(&table[first..first + width]);
    }
}

// Writes a heading, the count of a table's records, and the records.
fn put_listed(to: &mut Writer, heading: &[u8], table: &[u32], width: usize, count: usize)
    requires { width * count ≤ length table.now }
    ensures same_output { to.new.output.ghost_name ≡ to.old.output.ghost_name }
    ensures adds { Adds to.old.output.now to.old.at (listed heading.now width count table.now) to.new.output.now to.new.at }
    ensures table_in_bounds { length (listed heading.now width count table.now) ≤ length heading.now + 21 + 11 * (width * count) }
{
    to.put_bytes(heading);
    to.put_number(count, b'\n');
    put_lines(to, table, width, count);
}

// Writes the number and the place of a refusal.
pub fn put_refused(output: &mut [u8], number: u32, place: usize) -> usize
    ensures adds { Adds output.old 0 (refusal number place) output.new result }
    ensures place_len_bound { length (refusal number place) ≤ 40 }
{
    let mut to = Writer::new(output);
    to.put_bytes(b"refused,");
    to.put_number(number as usize, b',');
    to.put_number(place, b'\n');
    to.count()
}

// Writes what an answer counts, or its refusal, as much of it as the output has room for, and answers the number of bytes written.
pub fn put_answer(
    output: &mut [u8],
    heading: &[u8],
    table: &[u32],
    width: usize,
    answer: Answer,
) -> usize
    requires { FitsTable width table.now answer }
    ensures written { Written output.old (answered heading.now width table.now answer) output.new result }
    ensures answer_len_bound { length heading.now ≤ 19 → length (answered heading.now width table.now answer) ≤ listing_room (length table.now) }
{
    match answer {
        Answer::Accepted(count) => {
            let mut to = Writer::new(output);
            put_listed(&mut to, heading, table, width, count);
            to.count()
        }
        Answer::Refused(number, place) => put_refused(output, number, place),
    }
}
