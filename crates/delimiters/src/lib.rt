// The step of a reading at a delimiter: a group opened or closed. The state goes on by value while the stack is lent, so the two are not one struct.
#![tactic(auto)]

ghost use Rattle.std.specs.Prelude.{◌≡◌, ℕ, ◌≤◌, length};
ghost use Rattle.rule.specs.Levels.{Levels};
ghost use Rattle.prefix.specs.Reading.{open_group, closes, close_group};
ghost use Rattle.prefix.specs.Machinery.Represents.{Represents};
ghost use Rattle.delimiters.specs.Machinery.Delimits.{Follows, Delimits};

use answers::faults::Fault;
use elements::Element;
use prefix::{BLOCK, BRACKETS, OBJECT, OpenGroup, PARENS, State};
use summaries::Level;

// What a delimiter makes of the state: a group of a kind opened; or a group closed, with the caller's tag for it.
#[derive(Clone, Copy)]
pub enum Advanced {
    Opened(u32, State),
    Closed(u32, State),
}

fn open_group(
    stack: &mut [OpenGroup],
    state: State,
    room: usize,
    tag: u32,
    kind: u32,
    e: Element,
) -> Result<Advanced, Fault>
    requires { kind ≤ 10 }
    ensures { (tags : Levels → ℕ → ℕ) (levels : Levels) → Represents tags stack.old state levels → tag ≡ tags levels e.first → Follows room tags stack.new e levels result (open_group (record { groups = length stack.old; room = room }) levels kind e) }
{
    if stack.len() <= state.depth {
        return Err(Fault::Deep(e.first));
    }
    if room <= state.records {
        return Err(Fault::TreesFull(e.first));
    }
    stack[state.depth] = OpenGroup {
        around: state.level,
        tag,
    };
    let inside = State {
        level: Level::inside(kind),
        depth: state.depth + 1,
        records: state.records + 1,
    };
    Ok(Advanced::Opened(kind, inside))
}

// Whether a closer closes a group of a kind. `}` is the last of the closers, and has no test of its own: one took reading 1.6 % more instructions.
#[tactic(auto, unfolding(signs::specs::Signs::longest_sign, signs::specs::Signs::longest_of, text::specs::Runs::same))]
fn is_closed_by(kind: u32, which: u32) -> bool
    ensures { result ≡ closes which kind }
{
    match which {
        signs::CLOSE_PAREN => kind == PARENS,
        signs::CLOSE_BRACKET => kind == BRACKETS,
        _ => matches!(kind, OBJECT | BLOCK),
    }
}

fn close_group(stack: &[OpenGroup], state: State, e: Element) -> Result<Advanced, Fault>
    ensures { (room : ℕ) (tags : Levels → ℕ → ℕ) (levels : Levels) → Represents tags stack.now state levels → Follows room tags stack.now e levels result (close_group levels e) }
{
    let depth = state.depth;
    if depth == 0 || stack.len() < depth {
        return Err(Fault::WrongCloser(e.first));
    }
    let kind = state.level.kind();
    if !is_closed_by(kind, e.which) {
        return Err(Fault::WrongCloser(e.first));
    }
    let group = stack[depth - 1];
    let outside = State {
        level: group.around.after_group(kind),
        depth: depth - 1,
        ..state
    };
    Ok(Advanced::Closed(group.tag, outside))
}

// The state after a delimiter, where there is room for so many records. `tag` is what the caller keeps of a group that it opens,
// until it is closed.
pub fn delimit(
    stack: &mut [OpenGroup],
    state: State,
    room: usize,
    tag: u32,
    e: Element,
) -> Result<Advanced, Fault>
    ensures { Delimits stack.old stack.new state room tag e result }
{
    match e.which {
        signs::OPEN_PAREN => open_group(stack, state, room, tag, PARENS, e),
        signs::OPEN_BRACE if state.level.brace_opens(e.newline) => {
            open_group(stack, state, room, tag, OBJECT, e)
        }
        signs::OPEN_BRACE => open_group(stack, state, room, tag, BLOCK, e),
        signs::OPEN_BRACKET => open_group(stack, state, room, tag, BRACKETS, e),
        _ => close_group(stack, state, e),
    }
}
