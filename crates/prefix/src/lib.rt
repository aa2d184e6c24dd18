// The state of a reading: what the elements so far make of it, by the prefix rule.
#![tactic(auto)]

ghost use Rattle.std.specs.Prelude.{◌≡◌, List, ℕ, ◌<◌, ◌^◌};
ghost use Rattle.rule.specs.Trees.{none};
ghost use Rattle.rule.specs.Levels.{Levels, whole_text};
ghost use Rattle.prefix.specs.declared.OpenGroup.{OpenGroup};
ghost use Rattle.prefix.specs.Machinery.Represents.{Represents, States, Settles, AddsLeaf};

use elements::{Element, Stated};
use summaries::Level;

// The kinds of groups, and those of `++` and `--` before and after their operand and of a `:` that answers a `?`, for what stands above.
pub use summaries::{AFTER, ANSWER, BEFORE, BLOCK, BRACKETS, OBJECT, PARENS};

// An open group, on the stack that is lent beside a state: the level around it, and a number that the caller keeps of it, a record's index or a byte's place. A lent stack with the depth in the state, and no
// `Vec`: a call allocates nothing, and a state goes by value.
#[derive(Clone, Copy)]
pub struct OpenGroup {
    pub around: Level,
    pub tag: u32,
}

impl OpenGroup {
    // What an entry of the stack is before a group is put there.
    pub const NONE: OpenGroup = OpenGroup {
        around: Level { code: 0 },
        tag: 0,
    };
}

// The state of a reading: the innermost level, how many groups are open, how many records there are so far.
#[derive(Clone, Copy)]
pub struct State {
    pub level: Level,
    pub depth: usize,
    pub records: usize,
}

impl State {
    // The state before the first element.
    pub fn start() -> Self
        ensures { (tag : Levels → ℕ → ℕ) (stack : List OpenGroup) → Represents tag stack result (whole_text none) }
    {
        State {
            level: Level::WHOLE_TEXT,
            depth: 0,
            records: 0,
        }
    }

    // What the prefix rule states of the next element.
    pub fn stated(self) -> Stated
        ensures { States self result }
    {
        self.level.stated()
    }

    // An element with the kind that the prefix rule settles here: only a sign's is left open by its bytes.
    pub fn settled(self, e: Element) -> Element
        ensures { Settles self e result }
    {
        if e.kind != elements::SIGN {
            return e;
        }
        Element {
            kind: self.level.settled(e.which, e.newline),
            ..e
        }
    }

    // The state with a leaf more: an element that is no delimiter, of its settled kind.
    pub fn with_leaf(self, e: Element) -> Self
        requires { (self.level.code < 2 ^ 31) × (self.records < 2 ^ 32) }
        ensures { AddsLeaf self e result }
    {
        State {
            level: leaves::after_leaf(self.level, e),
            records: self.records + 1,
            ..self
        }
    }
}
