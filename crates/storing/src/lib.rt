// Storing: the tree records of a reading, in the lent table.
#![tactic(auto)]

ghost use Rattle.std.specs.Prelude.{◌≡◌, ◌++◌, ◌+◌, ◌*◌, ◌≤◌, length, take, drop, set};
ghost use Rattle.tables.specs.Records.{tree_width, tree_record};

use tables::TreeRecord;

// Writes the record of an index.
pub fn put(trees: &mut [u32], index: usize, tree: TreeRecord)
    requires { tree_width * index + tree_width ≤ length trees.old }
    ensures { trees.new ≡ take (tree_width * index) trees.old ++ (tree_record tree.kind tree.first tree.end tree.number tree.newline ++ drop (tree_width * index + tree_width) trees.old) }
{
    let at = TreeRecord::WIDTH * index;
    let cells: [u32; TreeRecord::WIDTH] = tree.into();
    // Five stores, since `copy_from_slice` is a call here: 13 instructions more for each record, 7 % of reading.
    trees[at] = cells[0];
    trees[at + 1] = cells[1];
    trees[at + 2] = cells[2];
    trees[at + 3] = cells[3];
    trees[at + 4] = cells[4];
}

// Writes the end and the number of the group whose record has an index.
pub fn finish(trees: &mut [u32], index: usize, end: u32, number: u32)
    requires { tree_width * index + tree_width ≤ length trees.old }
    ensures { trees.new ≡ set (set trees.old (tree_width * index + 2) end) (tree_width * index + 3) number }
{
    let at = TreeRecord::WIDTH * index;
    trees[at + 2] = end;
    trees[at + 3] = number;
}
