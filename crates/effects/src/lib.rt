// What a token does to a level.
// Stack and records are lent apart, as in `waiting`: functions differ in which of the two they write.
#![tactic(auto)]

ghost use Rattle.machine.specs.Operators.{prefix_kind, postfix_kind};
ghost use Rattle.machine.specs.Machinery.Machine.{end_expression, end_bare, end_empty, end_variable, take_else, take_operator, take_prefix, take_postfix};
ghost use Rattle.controls.specs.Machinery.Numbers.{effect_by};
ghost use Rattle.frames.specs.Machinery.Effects.{MayAffect, Affects};

use controls::{Effect, bindings, records};
use machine::tokens;
use waiting::{Level, Waiting};

// An operator behind an operand.
fn operated(l: Level, class: u32, mark: usize, waiting: &mut [Waiting], syntax: &mut [u32]) -> Level
    requires { MayAffect (take_operator class) mark l waiting.old syntax.old }
    ensures { Affects (take_operator class) mark l waiting.old syntax.old result waiting.new syntax.new }
{
    let least = bindings::threshold(class) + 1;
    let left = l.closed(least, waiting, syntax);
    left.wait(class, mark, waiting)
}

// An operator before its operand, or `new`.
fn prefixed(l: Level, class: u32, mark: usize, waiting: &mut [Waiting], syntax: &[u32]) -> Level
    requires { MayAffect (take_prefix (prefix_kind class)) mark l waiting.old syntax.now }
    ensures { Affects (take_prefix (prefix_kind class)) mark l waiting.old syntax.now result waiting.new syntax.now }
{
    l.wait(bindings::prefix_kind(class), mark, waiting)
}

// `++` or `--` behind an operand: what binds as `new` does is closed first.
fn postfixed(l: Level, class: u32, mark: usize, waiting: &[Waiting], syntax: &mut [u32]) -> Level
    requires { MayAffect (take_postfix (postfix_kind class)) mark l waiting.now syntax.old }
    ensures { Affects (take_postfix (postfix_kind class)) mark l waiting.now syntax.old result waiting.now syntax.new }
{
    let whole = l.closed(15, waiting, syntax);
    whole.made(bindings::postfix_kind(class), mark, syntax)
}

// `;` behind an expression.
fn expression_ended(l: Level, mark: usize, waiting: &[Waiting], syntax: &mut [u32]) -> Level
    requires { MayAffect end_expression mark l waiting.now syntax.old }
    ensures { Affects end_expression mark l waiting.now syntax.old result waiting.now syntax.new }
{
    let whole = l.closed(2, waiting, syntax);
    let one = whole.made(records::EXPRESSION, mark, syntax);
    one.completed(waiting, syntax)
}

// `;` behind `return`, `continue` or `break`: what waits last has nothing behind its word, and its kind is the number before.
fn bare_ended(l: Level, waiting: &[Waiting], syntax: &mut [u32]) -> Level
    requires { MayAffect end_bare 0 l waiting.now syntax.old }
    ensures { Affects end_bare 0 l waiting.now syntax.old result waiting.now syntax.new }
{
    let top = l.top - 1;
    let word = waiting[top];
    let before = Level {
        top,
        start: l.count,
        ..l
    };
    let one = before.made(u32::from(word.kind) - 1, usize::from(word.mark), syntax);
    one.completed(waiting, syntax)
}

// A variable ends: it joins those before it, which stand behind the `var` that waits.
fn variable_ended(l: Level, waiting: &[Waiting], syntax: &mut [u32]) -> Level
    requires { MayAffect end_variable 0 l waiting.now syntax.old }
    ensures { Affects end_variable 0 l waiting.now syntax.old result waiting.now syntax.new }
{
    let whole = l.closed(2, waiting, syntax);
    let mark = usize::from(waiting[whole.top - 1].mark);
    let one = whole.popped(waiting).made(records::VARIABLE, mark, syntax);
    Level {
        start: one.count,
        ..one
    }
}

// `else`: the `if` before it, which is all that its nest has, is its first part.
fn other_started(l: Level, mark: usize, waiting: &mut [Waiting], syntax: &[u32]) -> Level
    requires { MayAffect take_else mark l waiting.old syntax.now }
    ensures { Affects take_else mark l waiting.old syntax.now result waiting.new syntax.now }
{
    let whole = Level {
        start: usize::from(waiting[l.top - 1].start),
        ..l
    };
    whole.wait(tokens::ELSE, mark, waiting)
}

// An empty statement.
fn empty_ended(l: Level, mark: usize, waiting: &[Waiting], syntax: &mut [u32]) -> Level
    requires { MayAffect end_empty mark l waiting.now syntax.old }
    ensures { Affects end_empty mark l waiting.now syntax.old result waiting.now syntax.new }
{
    let one = l.made(records::EMPTY, mark, syntax);
    one.completed(waiting, syntax)
}

// What a token of a class does. A `match` and no closures: the rows of the machine's table are its arms.
pub fn affect(
    effect: Effect,
    class: u32,
    mark: usize,
    l: Level,
    waiting: &mut [Waiting],
    syntax: &mut [u32],
) -> Level
    requires { MayAffect (effect_by effect class) mark l waiting.old syntax.old }
    ensures { Affects (effect_by effect class) mark l waiting.old syntax.old result waiting.new syntax.new }
{
    match effect {
        Effect::Keep => l,
        Effect::TakeLeaf => l.made(class, mark, syntax),
        Effect::TakeMember => l.made(records::MEMBER, mark, syntax),
        Effect::TakeOperator => operated(l, class, mark, waiting, syntax),
        Effect::TakeLabel => l.wait(records::LABEL, l.held, waiting),
        Effect::HoldWord | Effect::HoldName => l.holding(mark),
        Effect::StartStatement => l.wait(controls::start_kind(class), mark, waiting),
        Effect::EndExpression => expression_ended(l, mark, waiting, syntax),
        Effect::EndValue => l.completed(waiting, syntax),
        Effect::EndBare => bare_ended(l, waiting, syntax),
        Effect::TakePrefix => prefixed(l, class, mark, waiting, syntax),
        Effect::TakePostfix => postfixed(l, class, mark, waiting, syntax),
        Effect::EndEmpty => empty_ended(l, mark, waiting, syntax),
        Effect::EndVariable => variable_ended(l, waiting, syntax),
        Effect::TakeElse => other_started(l, mark, waiting, syntax),
    }
}
