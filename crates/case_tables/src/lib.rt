// What is lent in a case, a table or an output. Each cell holds a mark before the call, so that a cell that is written shows,
// and a cell that is left too.
// `as` from `u32` to `usize` and back, or to a narrower type: std has no `From` there, and the check proves that nothing is lost.
#![tactic(auto)]

ghost use Rattle.std.specs.Prelude.{◌<◌};

use tables::{SyntaxRecord, TreeRecord};

// Room for one record more than there may be, and a cell of a further one.
pub const CELLS: usize = (TreeRecord::MOST + 1) * TreeRecord::WIDTH + 1;

// The same for syntax records.
pub const SYNTAX_CELLS: usize = (SyntaxRecord::MOST + 1) * SyntaxRecord::WIDTH + 1;

// The bytes of the array whose front is lent to the respacer.
pub const BYTES: usize = 500;

// A number of a table, or a byte of an output.
pub trait Cell: Copy + Default + PartialEq + Into<u32> {
    // The mark of the cell at a place, which no answer to these cases has there.
    fn mark(place: usize) -> Self;
}

// No record has a number as large.
impl Cell for u32 {
    fn mark(place: usize) -> u32 {
        1000000 + (place % 100000) as u32
    }
}

// 80 to FF, which no text that is read has.
impl Cell for u8 {
    fn mark(place: usize) -> u8 {
        (128 + place % 128) as u8
    }
}

pub fn mark_all<T: Cell>(cells: &mut [T]) {
    for (place, cell) in cells.iter_mut().enumerate() {
        *cell = T::mark(place);
    }
}

// Whether each cell from `first` on holds its mark.
pub fn kept<T: Cell>(cells: &[T], first: usize) -> bool {
    (first..cells.len()).all(|place| cells[place] == mark_at(place))
}

// A mark. At a place that a table of these cases has, the remainder is the place itself, and the compiler leaves the division out.
fn mark_at<T: Cell>(place: usize) -> T {
    if place < CELLS {
        T::mark(place)
    } else {
        far_mark(place)
    }
}

#[cold]
#[inline(never)]
fn far_mark<T: Cell>(place: usize) -> T {
    T::mark(place)
}

pub fn all_zero<T: Cell>(cells: &[T]) -> bool {
    cells.iter().all(|cell| *cell == T::default())
}

// Whether both tables hold their marks behind their records. The syntax records end before `end`, and the last one, the program,
// is marked with the number of tree records.
pub fn both_kept(trees: &[u32], syntax: &[u32], end: usize) -> bool {
    let count = program_mark(syntax, end);
    kept(syntax, end)
        && count <= trees.len() / TreeRecord::WIDTH
        && kept(trees, count * TreeRecord::WIDTH)
}

// 0 where there is no record: all trees are then asked for their marks.
fn program_mark(syntax: &[u32], end: usize) -> usize {
    match syntax.get(..end) {
        Some([.., _, mark, _]) => *mark as usize,
        _ => 0,
    }
}

// A number that the cells determine: each one adds its number to 31 times what stood before, modulo 1,000,003. No `fold`: that its closure
// does not overflow stays open there.
pub fn sum<T: Cell>(cells: &[T]) -> u64
    ensures { result < 1000003 }
{
    let mut total = 0;
    for cell in cells {
        let cell: u32 = (*cell).into();
        total = (total * 31 + u64::from(cell)) % 1000003;
    }
    total
}
