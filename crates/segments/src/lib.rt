// Parts of the tree table: the numbers of a record, its class, and what is inside a group.
// `as` from `u32` to `usize` and back: std has no `From` there, and the check proves that nothing is lost.
#![tactic(auto)]

ghost use Rattle.std.specs.Prelude.{◌≡◌, ◌+◌, ◌-◌, ◌^◌, ◌≤◌, ◌<◌, get_or};
ghost use Rattle.tables.specs.Records.{tree_width};
ghost use Rattle.segments.specs.Machinery.Segments.{count_of, cell_or, place_at, end_at, size_at, line_at, closer_at, sign_by, word_by, class_at, leaf_at, leaf_of, content_of, segment_of, inside};

use machine::tokens;
use tables::TreeRecord;

mod classes;

// A part of the tree table, with the text: whole tree records, the index of the first in the whole table, and the place of the closer
// around them, or the text's length where there is none.
#[derive(Clone, Copy)]
pub struct Segment<'a> {
    pub text: &'a [u8],
    pub trees: &'a [u32],
    pub base: usize,
    pub close: usize,
}

impl<'a> Segment<'a> {
    // How many records there are.
    pub fn count(self) -> usize
        ensures { result ≡ count_of self.entry.trees.now }
    {
        self.trees.len() / TreeRecord::WIDTH
    }

    // A number of a record; 0 past the last, as `cell_or` of the definitions has it, and so for what is read by it. One is read at a time, since most classes need no more than one or two.
    fn cell(self, at: usize, place: usize) -> u32
        requires { place < tree_width }
        ensures { result ≡ cell_or 0 self.entry.trees.now at place }
    {
        if at < self.count() {
            return self.trees[at * TreeRecord::WIDTH + place];
        }
        0
    }

    // The first byte of a record, or the place of the closer past the last.
    #[tactic(auto, unfolding(crate::specs::Machinery::Segments::place_at))]
    pub fn place_at(self, at: usize) -> usize
        ensures { result ≡ place_at self.entry.trees.now self.entry.close at }
    {
        if at < self.count() {
            return self.cell(at, 1) as usize;
        }
        self.close
    }

    // How many records are in a record with itself; 0 past the last.
    #[tactic(auto, unfolding(crate::specs::Machinery::Segments::size_at))]
    pub fn size_at(self, at: usize) -> usize
        ensures { result ≡ size_at self.entry.trees.now at }
    {
        self.cell(at, 3) as usize
    }

    // The place of a group's closer.
    #[tactic(auto, unfolding(crate::specs::Machinery::Segments::closer_at, crate::specs::Machinery::Segments::end_at))]
    pub fn closer_at(self, at: usize) -> usize
        ensures { result ≡ closer_at self.entry.trees.now at }
    {
        (self.cell(at, 2) as usize).saturating_sub(1)
    }

    // Whether a line end lies before a record.
    #[tactic(auto, unfolding(crate::specs::Machinery::Segments::line_at))]
    pub fn newline_at(self, at: usize) -> bool
        ensures { result ≡ line_at self.entry.trees.now at }
    {
        self.cell(at, 4) == 1
    }

    // A byte of the text; 0 past its end, as `get_or` of the definitions has it.
    fn byte_at(self, place: usize) -> u8
        ensures { result ≡ get_or self.entry.text.now place 0 }
    {
        self.text.get(place).copied().unwrap_or(0)
    }

    // The class of a record that is a sign.
    #[tactic(auto, unfolding(crate::specs::Machinery::Segments::place_at, crate::specs::Machinery::Segments::end_at, crate::specs::Machinery::Segments::sign_by))]
    fn sign_at(self, at: usize) -> u32
        ensures { result
            ≡ sign_by (end_at self.entry.trees.now at - place_at self.entry.trees.now 0 at) (get_or self.entry.text.now (place_at self.entry.trees.now 0 at) 0) (get_or self.entry.text.now (end_at self.entry.trees.now at - 1) 0) }
    {
        let first = self.cell(at, 1) as usize;
        let end = self.cell(at, 2) as usize;
        let b = self.byte_at(first);
        // Most signs have one byte.
        if end == first + 1 {
            return classes::single_class(b);
        }
        let last = self.byte_at(end.saturating_sub(1));
        classes::longer_class(end.saturating_sub(first), b, last)
    }

    // The class of a record that is a reserved word.
    #[tactic(auto, unfolding(crate::specs::Machinery::Segments::place_at, crate::specs::Machinery::Segments::end_at))]
    fn word_at(self, at: usize) -> u32
        ensures { result
            ≡ word_by (end_at self.entry.trees.now at - place_at self.entry.trees.now 0 at) (get_or self.entry.text.now (place_at self.entry.trees.now 0 at) 0) (get_or self.entry.text.now (end_at self.entry.trees.now at - 1) 0) }
    {
        let first = self.cell(at, 1) as usize;
        let end = self.cell(at, 2) as usize;
        let last = self.byte_at(end.saturating_sub(1));
        classes::word_class(end.saturating_sub(first), self.byte_at(first), last)
    }

    // The class of a record; 0 past the last.
    #[tactic(auto, unfolding(crate::specs::Machinery::Segments::class_at, crate::specs::Machinery::Segments::kind_at, crate::specs::Machinery::Segments::class_by, crate::specs::Machinery::Segments::kind_by))]
    pub fn class_at(self, at: usize) -> u32
        ensures { result ≡ class_at self.entry.text.now self.entry.trees.now at }
    {
        let kind = self.cell(at, 0);
        // No other kind has as many records.
        if kind == elements::NAME {
            return tokens::NAME;
        }
        if classes::is_spelled(kind) {
            return self.sign_at(at);
        }
        if kind == elements::WORD {
            return self.word_at(at);
        }
        classes::kind_class(kind)
    }

    // The class of a record that is a name, number, string or regular expression; none for others.
    #[tactic(auto, unfolding(crate::specs::Machinery::Segments::leaf_at, crate::specs::Machinery::Segments::kind_at))]
    pub fn leaf_at(self, at: usize) -> Option<u32>
        ensures { result ≡ leaf_of (leaf_at self.entry.trees.now at) }
    {
        let class = classes::kind_class(self.cell(at, 0));
        if tokens::NAME <= class && class <= tokens::PATTERN {
            return Some(class);
        }
        None
    }

    // The records inside a group: the part of the slice that starts behind the opener's record.
    #[tactic(auto, unfolding(crate::specs::Machinery::Segments::content_of))]
    pub fn records_inside(self, at: usize) -> &'a [u32]
        requires { (1 ≤ size_at self.trees.now at) × (at + size_at self.trees.now at ≤ count_of self.trees.now) }
        ensures { result.now ≡ content_of self.entry.trees.now at }
    {
        let size = self.size_at(at);
        let first = (at + 1) * TreeRecord::WIDTH;
        let end = first + (size - 1) * TreeRecord::WIDTH;
        &self.trees[first..end]
    }

    // The part inside a group; the index of its first record is to fit, too.
    pub fn inside(self, at: usize) -> Segment<'a>
        requires size_fits { (1 ≤ size_at self.trees.now at) × (at + size_at self.trees.now at ≤ count_of self.trees.now) }
        requires index_fits { self.base + at + 1 < 2 ^ 64 }
        ensures { segment_of result ≡ inside (segment_of self.entry) at }
    {
        Segment {
            trees: self.records_inside(at),
            base: self.base + at + 1,
            close: self.closer_at(at),
            ..self
        }
    }
}
