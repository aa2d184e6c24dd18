// What is kept of an element: its record in the table or, where the text is spaced, its bytes in the output. Each answers the count of
// bytes written.
// `as` from `u32` to `usize` and back: std has no `From` there, and the check proves that nothing is lost.
#![tactic(auto)]

ghost use Rattle.std.specs.Prelude.{◌≡◌};
ghost use Rattle.keeping.specs.Machinery.Keeping.{MayKeep, MayKeepEnd, with_leaf, with_opener, KeepsTree, KeepsEnd};

use elements::Element;
use prefix::State;
use tables::TreeRecord;

// A text, the table and the output that are lent for it, and which of the two is written: the output where it is spaced. The text has a lifetime
// of its own, since the borrow checker does not cover a call that takes both at the same one.
#[derive(Drop)]
pub struct Keeper<'t, 'a> {
    pub text: &'t [u8],
    pub trees: &'a mut [u32],
    pub output: &'a mut [u8],
    pub spaced: bool,
}

impl Keeper<'_, '_> {
    // Keeps a leaf.
    pub fn keep_leaf(&mut self, state: State, at: usize, e: Element) -> usize
        requires { MayKeep self.old.spaced self.old.text.now self.old.trees.now self.old.output.now state at e }
        ensures same_trees { self.new.trees.ghost_name ≡ self.old.trees.ghost_name }
        ensures same_output { self.new.output.ghost_name ≡ self.old.output.ghost_name }
        ensures same_text { self.new.text.now ≡ self.old.text.now }
        ensures same_form { self.new.spaced ≡ self.old.spaced }
        ensures keeps { KeepsTree self.old.spaced self.old.text.now self.old.trees.now self.old.output.now self.new.trees.now self.new.output.now state at e (with_leaf e) result }
    {
        if self.spaced {
            return spacing::put_element(self.text, self.output, at, e.first, e.end, e.newline);
        }
        let record = TreeRecord::new(e.kind, e.first as u32, e.end as u32, 1, e.newline);
        storing::put(self.trees, state.records, record);
        at
    }

    // Keeps a group of a kind that opens, whose end is not known yet.
    pub fn keep_opener(&mut self, state: State, at: usize, kind: u32, e: Element) -> usize
        requires { MayKeep self.old.spaced self.old.text.now self.old.trees.now self.old.output.now state at e }
        ensures same_trees { self.new.trees.ghost_name ≡ self.old.trees.ghost_name }
        ensures same_output { self.new.output.ghost_name ≡ self.old.output.ghost_name }
        ensures same_text { self.new.text.now ≡ self.old.text.now }
        ensures same_form { self.new.spaced ≡ self.old.spaced }
        ensures keeps { KeepsTree self.old.spaced self.old.text.now self.old.trees.now self.old.output.now self.new.trees.now self.new.output.now state at e (with_opener kind e) result }
    {
        if self.spaced {
            return spacing::put_element(
                self.text,
                self.output,
                at,
                e.first,
                e.first + 1,
                e.newline,
            );
        }
        let record = TreeRecord::new(kind, e.first as u32, 0, 0, e.newline);
        storing::put(self.trees, state.records, record);
        at
    }

    // Keeps the end of a group that closes, whose tag is `opener`.
    pub fn keep_closer(&mut self, state: State, at: usize, opener: u32, e: Element) -> usize
        requires { MayKeepEnd self.old.spaced self.old.text.now self.old.trees.now self.old.output.now state at opener e }
        ensures same_trees { self.new.trees.ghost_name ≡ self.old.trees.ghost_name }
        ensures same_output { self.new.output.ghost_name ≡ self.old.output.ghost_name }
        ensures same_text { self.new.text.now ≡ self.old.text.now }
        ensures same_form { self.new.spaced ≡ self.old.spaced }
        ensures keeps { KeepsEnd self.old.spaced self.old.text.now self.old.trees.now self.old.output.now self.new.trees.now self.new.output.now state at opener e result }
    {
        if self.spaced {
            return spacing::put_closer(self.text, self.output, at, e.end - 1, e.end);
        }
        let group = opener as usize;
        let number = (state.records - group) as u32;
        storing::finish(self.trees, group, e.end as u32, number);
        at
    }
}
