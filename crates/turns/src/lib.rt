// The turns of a reading: the loop that reading and respacing share, with `spaced` for which of the two is kept, since two loops would not both have all else set in
// (reading took 6.75 million instructions where it then took 4.9). Read, a text leaves its records in the table; spaced, its elements in the output. The element call and the step are compiled into the one loop, since nothing else in these calls uses them.
// `as` from `u32` to `usize` and back: std has no `From` there, and the check proves that nothing is lost.
#![tactic(auto)]

ghost use Rattle.std.specs.Prelude.{◌≡◌, true, false, List, ℕ, ◌<◌, ◌^◌};
ghost use Rattle.prefix.specs.declared.OpenGroup.{OpenGroup};
ghost use Rattle.keeping.specs.Machinery.Keeping.{lent, MayTake};
ghost use Rattle.turns.specs.Machinery.Turns.{Takes, MayRead, Runs};

use answers::faults::Fault;
use delimiters::Advanced;
use elements::Element;
use keeping::Keeper;
use prefix::{OpenGroup, State};
use text::Codes;

// The bytes that a text has at most, and the groups that may be open in it.
pub const MOST_BYTES: usize = 262144;

pub const MOST_GROUPS: usize = 100;

// How far a reading is: the state there, and the count of bytes written.
#[derive(Clone, Copy)]
pub struct Reached {
    pub state: State,
    pub written: usize,
}

// Takes an element that is no delimiter.
fn take_leaf(keeper: &mut Keeper, room: usize, at: Reached, e: Element) -> Result<Reached, Fault>
    requires { (stack : List OpenGroup) × MayTake keeper.old.spaced keeper.old.text.now (lent keeper.old.trees.now keeper.old.output.now stack) room at.state at.written e }
    ensures same_trees { keeper.new.trees.ghost_name ≡ keeper.old.trees.ghost_name }
    ensures same_output { keeper.new.output.ghost_name ≡ keeper.old.output.ghost_name }
    ensures same_text { keeper.new.text.now ≡ keeper.old.text.now }
    ensures same_form { keeper.new.spaced ≡ keeper.old.spaced }
    ensures takes { (stack : List OpenGroup) → (e.kind ≡ 0 → ⊥) → Takes keeper.old.spaced keeper.old.text.now (lent keeper.old.trees.now keeper.old.output.now stack) (lent keeper.new.trees.now keeper.new.output.now stack) room at e result }
{
    let state = at.state;
    if room <= state.records {
        return Err(Fault::TreesFull(e.first));
    }
    let leaf = state.settled(e);
    let next = state.with_leaf(leaf);
    let written = keeper.keep_leaf(state, at.written, leaf);
    Ok(Reached {
        state: next,
        written,
    })
}

// What is kept of a group on the stack until it is closed: its opener's place, or the index of its record.
fn tag_for(spaced: bool, state: State, e: Element) -> u32
    requires { (e.first < 2 ^ 32) × (spaced ≡ false → state.records < 2 ^ 32) }
    ensures { (spaced ≡ true → result ≡ e.first) × (spaced ≡ false → result ≡ state.records) }
{
    if spaced {
        return e.first as u32;
    }
    state.records as u32
}

// Takes a delimiter.
fn take_delimiter(
    keeper: &mut Keeper,
    stack: &mut [OpenGroup],
    room: usize,
    at: Reached,
    e: Element,
) -> Result<Reached, Fault>
    requires { MayTake keeper.old.spaced keeper.old.text.now (lent keeper.old.trees.now keeper.old.output.now stack.old) room at.state at.written e }
    ensures same_trees { keeper.new.trees.ghost_name ≡ keeper.old.trees.ghost_name }
    ensures same_output { keeper.new.output.ghost_name ≡ keeper.old.output.ghost_name }
    ensures same_text { keeper.new.text.now ≡ keeper.old.text.now }
    ensures same_form { keeper.new.spaced ≡ keeper.old.spaced }
    ensures takes { e.kind ≡ 0 → Takes keeper.old.spaced keeper.old.text.now (lent keeper.old.trees.now keeper.old.output.now stack.old) (lent keeper.new.trees.now keeper.new.output.now stack.new) room at e result }
{
    let Reached { state, written } = at;
    let tag = tag_for(keeper.spaced, state, e);
    match delimiters::delimit(stack, state, room, tag, e)? {
        Advanced::Opened(kind, next) => {
            let to = keeper.keep_opener(state, written, kind, e);
            Ok(Reached {
                state: next,
                written: to,
            })
        }
        Advanced::Closed(opener, next) => {
            let to = keeper.keep_closer(state, written, opener, e);
            Ok(Reached {
                state: next,
                written: to,
            })
        }
    }
}

// Takes an element. A leaf and a delimiter are taken apart before anything is made of them.
fn take_element(
    keeper: &mut Keeper,
    stack: &mut [OpenGroup],
    room: usize,
    at: Reached,
    e: Element,
) -> Result<Reached, Fault>
    requires { MayTake keeper.old.spaced keeper.old.text.now (lent keeper.old.trees.now keeper.old.output.now stack.old) room at.state at.written e }
    ensures same_trees { keeper.new.trees.ghost_name ≡ keeper.old.trees.ghost_name }
    ensures same_output { keeper.new.output.ghost_name ≡ keeper.old.output.ghost_name }
    ensures same_text { keeper.new.text.now ≡ keeper.old.text.now }
    ensures same_form { keeper.new.spaced ≡ keeper.old.spaced }
    ensures takes { Takes keeper.old.spaced keeper.old.text.now (lent keeper.old.trees.now keeper.old.output.now stack.old) (lent keeper.new.trees.now keeper.new.output.now stack.new) room at e result }
{
    if e.kind != elements::DELIMITER {
        return take_leaf(keeper, room, at, e);
    }
    take_delimiter(keeper, stack, room, at, e)
}

// Reads a text to its end or a refusal: what is kept of it is in the table or, spaced, in the output. The keeper is made here: lent by the
// caller, it is read from memory at each element, and reading takes 0.8 % more instructions, respacing 1.1 %.
pub fn read_on(
    codes: &Codes,
    text: &[u8],
    trees: &mut [u32],
    output: &mut [u8],
    stack: &mut [OpenGroup],
    room: usize,
    spaced: bool,
) -> Result<Reached, Fault>
    requires { MayRead spaced text.now trees.old stack.old room }
    ensures { Runs spaced text.now (lent trees.old output.old stack.old) (lent trees.new output.new stack.new) room result }
{
    let mut keeper = Keeper {
        text,
        trees,
        output,
        spaced,
    };
    let mut at = Reached {
        state: State::start(),
        written: 0,
    };
    let mut place = 0;
    while let Some(e) = elements::element_by(codes, text, place, at.state.stated())? {
        at = take_element(&mut keeper, stack, room, at, e)?;
        place = e.end;
    }
    Ok(at)
}
