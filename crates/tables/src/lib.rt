// Tree and syntax records, and the lent tables that they are written to.
#![tactic(auto)]

ghost use Rattle.std.specs.Prelude.{ℕ, ◌≡◌, ◌<◌, length, replicate};
ghost use Rattle.std.proofs.Common.{lit<};
ghost use Rattle.tables.specs.Records.{tree_width, most_trees, tree_record, syntax_width, most_syntax, room};

// A record of a table: how many numbers it has, and how many records a table holds at most. The types have both constants too, as the rules ask, so that a caller names no trait.
pub trait Record {
    ghost WIDTH: { ℕ };

    ghost MOST: { ℕ };

    const WIDTH: usize;

    const MOST: usize;

    ghost has_width: { 0 < WIDTH };
}

// A tree record: its kind, its first byte, the byte after its last, the records in it with itself, and whether a line end
// lies before it.
#[derive(Clone, Copy)]
pub struct TreeRecord {
    pub kind: u32,
    pub first: u32,
    pub end: u32,
    pub number: u32,
    pub newline: bool,
}

impl TreeRecord {
    // How many numbers a record has, and how many records a table holds at most.
    pub const WIDTH: usize = 5;

    pub const MOST: usize = 16384;

    pub fn new(kind: u32, first: u32, end: u32, number: u32, newline: bool) -> TreeRecord
        ensures { result ≡ record { kind = kind; first = first; end = end; number = number; newline = newline } }
    {
        TreeRecord {
            kind,
            first,
            end,
            number,
            newline,
        }
    }
}

impl Record for TreeRecord {
    ghost WIDTH = { tree_width };

    ghost MOST = { most_trees };

    const WIDTH: usize = TreeRecord::WIDTH;

    const MOST: usize = TreeRecord::MOST;

    ghost has_width = { lit< tt };
}

impl From<TreeRecord> for [u32; TreeRecord::WIDTH] {
    ghost from_gives = { λ tree cells. cells ≡ tree_record tree.kind tree.first tree.end tree.number tree.newline };

    fn from(tree: TreeRecord) -> [u32; TreeRecord::WIDTH] {
        let newline = u32::from(tree.newline);
        [tree.kind, tree.first, tree.end, tree.number, newline]
    }
}

// A syntax record: its kind, the index of the tree record that marks it, and the syntax records in it with itself.
#[derive(Clone, Copy)]
pub struct SyntaxRecord {
    pub kind: u32,
    pub mark: u32,
    pub number: u32,
}

impl SyntaxRecord {
    // How many numbers a record has, and how many records a table holds at most.
    pub const WIDTH: usize = 3;

    pub const MOST: usize = 16385;
}

impl Record for SyntaxRecord {
    ghost WIDTH = { syntax_width };

    ghost MOST = { most_syntax };

    const WIDTH: usize = SyntaxRecord::WIDTH;

    const MOST: usize = SyntaxRecord::MOST;

    ghost has_width = { lit< tt };
}

// The records that a table of so many numbers has room for.
pub fn room_for<R: Record>(cells: usize) -> usize
    ensures { result ≡ room R.WIDTH R.MOST cells }
{
    (cells / R::WIDTH).min(R::MOST)
}

// Every cell of a table becomes 0. A function of its own, since wrong programs change what it does.
pub fn clear(table: &mut [u32])
    ensures { table.new ≡ replicate (length table.old) 0 }
{
    table.fill(0);
}
