// What `treelist` and `trees` print of the text on standard input: the whole of it, where the output has room for every listing. `front`,
// `INPUT` and `TREES` serve the listings of `syntax` and `respace` too.
#![tactic(auto)]

ghost use Rattle.std.specs.Prelude.{◌≡◌, take};
ghost use Rattle.reading.specs.Read.{answer_of, table_after};
ghost use Rattle.listing.specs.Listing.{short_reading, whole_trees, ListsTrees, Counts};

use answers::Answer;
use answers::faults::Fault;
use tables::TreeRecord;

// The bytes and records that `treelist` lists at most.
const MOST_LISTED: usize = 8192;

const MOST_LISTED_TREES: usize = 3000;

// A buffer has a byte more than may be read, so that a longer text is seen to be longer.
pub const SHORT_INPUT: usize = MOST_LISTED + 1;

pub const INPUT: usize = reader::MOST_BYTES + 1;

pub const SHORT_TREES: usize = MOST_LISTED_TREES * TreeRecord::WIDTH;

pub const TREES: usize = TreeRecord::MOST * TreeRecord::WIDTH;

// A cell has at most 10 digits and a byte behind them. The sum is written out for each output, since a constant takes no call of a `const fn`.
pub const SHORT_OUTPUT: usize = 11 * SHORT_TREES + 40;

pub const TREES_OUTPUT: usize = 11 * TREES + 40;

// The bytes of a buffer that were read.
pub fn front(input: &[u8], count: usize) -> &[u8]
    ensures { result.now ≡ take count input.now }
{
    &input[..count.min(input.len())]
}

// Reads a text, or refuses it as too long for `treelist`.
fn read_short(text: &[u8], trees: &mut [u32; SHORT_TREES]) -> Answer
    ensures { (result ≡ answer_of (short_reading text.now)) × (trees.new ≡ table_after (short_reading text.now) trees.old) }
{
    if MOST_LISTED < text.len() {
        tables::clear(trees);
        return Answer::from(Fault::Long(reader::MOST_BYTES));
    }
    reader::read(text, trees)
}

// What `treelist` prints of a text whose front was read into a buffer. `list_trees` is the same but for `read_short` and the sizes, which its
// contract, of the whole text, has from the types of the parameters: a common function would take the reading as a closure, for two lines.
pub fn list_short(
    input: &[u8; SHORT_INPUT],
    count: usize,
    trees: &mut [u32; SHORT_TREES],
    output: &mut [u8; SHORT_OUTPUT],
) -> usize
    ensures counts { Counts result output.new }
    ensures lists_trees { ListsTrees short_reading input.now count trees.old trees.new
        output.old output.new result }
{
    let answer = read_short(front(input, count), trees);
    printing::put_answer(output, b"trees,", trees, TreeRecord::WIDTH, answer)
}

// What `trees` prints.
pub fn list_trees(
    input: &[u8; INPUT],
    count: usize,
    trees: &mut [u32; TREES],
    output: &mut [u8; TREES_OUTPUT],
) -> usize
    ensures counts { Counts result output.new }
    ensures lists_trees { ListsTrees whole_trees input.now count trees.old trees.new output.old output.new result }
{
    let answer = reader::read(front(input, count), trees);
    printing::put_answer(output, b"trees,", trees, TreeRecord::WIDTH, answer)
}
