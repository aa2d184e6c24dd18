// What waits on a level for a part on its right, and the syntax records so far. What waits stands on a lent stack: operators and
// beginnings of statements with their kind, their mark and their first syntax record; nests with a number that tells what they are and
// the setting around them, the mark of their word and their first syntax record; an open `?` with a number that tells its expression, its
// mark and the first syntax record of its condition.
// `as` from `u32` to `usize` and back: std has no `From` there, and the check proves that nothing is lost.
#![tactic(auto)]

ghost use Rattle.std.specs.Prelude.{◌≡◌, ◌+◌, ◌-◌, ◌≤◌, ◌<◌, length};
ghost use Rattle.tables.specs.Records.{most_trees, most_syntax};
ghost use Rattle.controls.specs.Machinery.Written.{put_record};
ghost use Rattle.waiting.specs.Machinery.Waiting.{binding, Backed, Closes, Completes, stack_with, stack_as, popped, waiting_one, made_one, with_held, restarted};

use controls::{bindings, records};

// What waits, in 6 bytes, since a stack of 16,384 of them is made on the machine's own stack.
#[derive(Clone, Copy)]
pub struct Waiting {
    pub kind: u16,
    pub mark: u16,
    pub start: u16,
}

// In place of a kind, which is below: the least number that stands for a nest, and that stands for an open `?`. One number of 16 bits and no enum: an entry is six bytes, and the
// stack of 16,384 takes half of the room that a call may take.
pub const NEST: u32 = 128;

pub const ASK: u32 = 256;

// How many settings the numbers of nests and of open `?`s have room for.
pub const SETTINGS: u32 = 8;

// A level: syntax records so far; how many parts wait, and how many on the levels around; the first syntax record of the operand; the
// mark of a word or name that is held. That a mark is one of the records is asked of the number alone, since it goes into 16 bits.
// `held` is 0 where nothing is held, since only places behind a word or a name ask for it. The stack is lent, and no `Vec`: a call allocates nothing.
#[derive(Clone, Copy)]
pub struct Level {
    pub count: usize,
    pub top: usize,
    pub floor: usize,
    pub start: usize,
    pub held: usize,
}

// How tight what waits binds: operators more than 1, beginnings of statements 1, a nest or an open `?` 0.
fn binding(kind: u32) -> u32
    ensures { result ≡ binding kind }
{
    if NEST <= kind {
        return 0;
    }
    bindings::tightness(kind) + 1
}

// The stack and the records are lent apart, since most methods write one of them and read the other or not at all.
impl Level {
    // A level where nothing stands yet.
    pub fn empty(count: usize, top: usize) -> Level
        ensures { (result.count ≡ count) × (result.top ≡ top) × (result.floor ≡ top) × (result.start ≡ count) × (result.held ≡ 0) }
    {
        Level {
            count,
            top,
            floor: top,
            start: count,
            held: 0,
        }
    }

    // What waits uppermost waits no more: its left side is the first part of the operand.
    pub fn popped(self, waiting: &[Waiting]) -> Level
        requires { (1 ≤ self.top) × (self.top ≤ length waiting.now) }
        ensures { result ≡ popped self waiting.now }
    {
        let top = self.top - 1;
        Level {
            top,
            start: usize::from(waiting[top].start),
            ..self
        }
    }

    // Closes what waits above the floor and binds at least so tight. It is set into its callers, where the level stays in registers.
    #[inline(always)]
    pub fn closed(self, least: u32, waiting: &[Waiting], syntax: &mut [u32]) -> Level
        requires { Backed self waiting.now syntax.old }
        ensures { (result.floor ≡ self.floor) × (result.held ≡ self.held) × Closes least self waiting.now syntax.old result syntax.new }
    {
        let mut l = self;
        // A stack is emptied from its top, and no range counts how far.
        while l.floor < l.top {
            let part = waiting[l.top - 1];
            let kind = u32::from(part.kind);
            if binding(kind) < least {
                break;
            }
            l = l.popped(waiting).made(kind, usize::from(part.mark), syntax);
        }
        l
    }

    // Lets the operand, or nothing, wait as the left side of a part.
    pub fn wait(self, kind: u32, mark: usize, waiting: &mut [Waiting]) -> Level
        requires { (self.top < length waiting.old) × (kind < 65536) × (mark ≤ most_trees) × (self.start ≤ most_trees) }
        ensures { (result ≡ waiting_one self) × (waiting.new ≡ stack_with waiting.old self.top kind mark self.start) }
    {
        waiting[self.top] = Waiting {
            kind: kind as u16,
            mark: mark as u16,
            start: self.start as u16,
        };
        Level {
            top: self.top + 1,
            start: self.count,
            ..self
        }
    }

    // The operand is the rest of the left side of what waits uppermost, which is of a kind now: a `?` that is answered, or a `do` that has
    // its statement.
    pub fn joined(self, kind: u32, waiting: &mut [Waiting]) -> Level
        requires { (1 ≤ self.top) × (self.top ≤ length waiting.old) × (kind < 65536) }
        ensures { (result ≡ restarted self) × (waiting.new ≡ stack_as waiting.old self.top kind) }
    {
        waiting[self.top - 1].kind = kind as u16;
        Level {
            start: self.count,
            ..self
        }
    }

    // Puts the record of a part that holds the operand, or nothing; it is the operand now.
    pub fn made(self, kind: u32, mark: usize, syntax: &mut [u32]) -> Level
        requires { (self.start ≤ self.count) × (self.count < most_syntax) × (mark ≤ most_trees) }
        ensures { (result ≡ made_one self) × (syntax.new ≡ put_record syntax.old self.count kind mark (self.count - self.start + 1)) }
    {
        Level {
            count: records::put(syntax, self.count, kind, mark, self.start),
            ..self
        }
    }

    // A statement is complete, and so are those that it ends.
    pub fn completed(self, waiting: &[Waiting], syntax: &mut [u32]) -> Level
        requires { Backed self waiting.now syntax.old }
        ensures { Completes self waiting.now syntax.old result syntax.new }
    {
        let all = self.closed(1, waiting, syntax);
        Level {
            start: all.count,
            ..all
        }
    }

    // The level with a word or name held.
    pub fn holding(self, word: usize) -> Level
        ensures { result ≡ with_held word self }
    {
        Level { held: word, ..self }
    }
}

// The same level once more (see `controls::copied`).
pub fn copied(l: Level) -> Level
    ensures { result ≡ l }
{
    Level { ..l }
}
